// How the programs cut their input into records.
ghost use Rattle.text.specs.Inputs.{RecordEnd};

// Where the first record of the bytes ends: where its length says, or at the end of the bytes if that is too far or absent.
pub fn record_end(b: &[u8]) -> usize
    ensures { RecordEnd b.now result }
{
    let [low, high, ..] = b else {
        return b.len();
    };
    let end = u16::from_le_bytes([*low, *high]) as usize + 2;
    end.min(b.len())
}
