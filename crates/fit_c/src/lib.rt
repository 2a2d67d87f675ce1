// The panel's entries for C: reading of the three records, writing of a controller, and the check. Each is one call of the function of `fit::panel` of its
// name, and says what that says.
#![tactic(auto)]

ghost use Rattle.rules.specs.Writing.{ControllerWritten};
ghost use Rattle.verdicts.specs.Check.{Checked};
ghost use Rattle.fit.specs.Panel.{ContextReplied, SpecificationReplied, ControllerReplied};

use fit::{Controller, panel};
use rules::Reply;

#[unsafe(no_mangle)]
pub extern "C" fn mortarleaf_read_context(bytes: &[u8]) -> Reply
    ensures { ContextReplied bytes.now result }
{
    panel::mortarleaf_read_context(bytes)
}

#[unsafe(no_mangle)]
pub extern "C" fn mortarleaf_read_specification(bytes: &[u8]) -> Reply
    ensures { SpecificationReplied bytes.now result }
{
    panel::mortarleaf_read_specification(bytes)
}

// The steps go into the lent next table.
#[unsafe(no_mangle)]
pub extern "C" fn mortarleaf_read_controller(bytes: &[u8], next: &mut [u16]) -> Controller
    ensures { ControllerReplied bytes.now next.old result next.new }
{
    panel::mortarleaf_read_controller(bytes, next)
}

// The record goes into the lent bytes, from the start place on.
#[unsafe(no_mangle)]
pub extern "C" fn mortarleaf_write_controller(
    u: u32,
    v: u32,
    states: u32,
    next: &[u16],
    out: &mut [u8],
    start: usize,
) -> Reply
    ensures { ControllerWritten u v states next.now out.old start result out.new }
{
    panel::mortarleaf_write_controller(u, v, states, next, out, start)
}

// The reached pairs of each controller state go into the lent numbers.
#[unsafe(no_mangle)]
pub extern "C" fn mortarleaf_check(
    context: &[u8],
    specification: &[u8],
    controller: &[u8],
    sets: &mut [u64],
) -> Reply
    ensures { Checked context.now specification.now controller.now sets.old result sets.new }
{
    panel::mortarleaf_check(context, specification, controller, sets)
}
