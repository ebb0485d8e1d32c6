// Reads an input up to a limit.
ghost use Rattle.std.specs.Prelude.{◌≡◌, ◌≤◌, ◌<◌, IfOk, IfErr, OnOk};
ghost use Rattle.chv_top.specs.Outcome.{TakesAtMost};
ghost use Rattle.chv_top.specs.Taken.{Took, HasRead, FailsBy};

use chv_io::Source;
use std::alloc::Global;

/// How many bytes are asked for at a time.
const PIECE: usize = 4096;

/// Why an input was not read.
#[derive(Clone, Copy, PartialEq, Eq)]
pub enum InputError {
    Memory,
    ReadFault,
}

/// The bytes of an input, up to its end or to a limit.
pub fn read_input<S: Source>(
    alloc: Global,
    input: &mut S,
    limit: usize,
) -> Result<Vec<u8>, InputError>
    ensures ok { IfOk result (λ bytes. HasRead (S.left input.old) (S.left input.new) bytes.items limit) }
    ensures err { IfErr result (λ error. FailsBy (S.read_faults input.old) (S.read_faults input.new) error) }
    ensures few { TakesAtMost (S.left input.old) (S.left input.new) limit }
    ensures later { S.read_faults input.old ≤ S.read_faults input.new }
    ensures kept { OnOk result (S.read_faults input.new ≡ S.read_faults input.old) }
{
    let mut bytes = Vec::new(alloc);
    while bytes.len() < limit {
        let most = limit - bytes.len();
        if take_piece(input, &mut bytes, most)? == 0 {
            break;
        }
    }
    Ok(bytes)
}

// Takes one piece of at most so many bytes, and says how many it has.
fn take_piece<S: Source>(
    input: &mut S,
    bytes: &mut Vec<u8>,
    most: usize,
) -> Result<usize, InputError>
    requires { 0 < most }
    ensures ok { IfOk result (λ count. Took (S.left input.old) (S.left input.new) bytes.old.items bytes.new.items most count) }
    ensures err { IfErr result (λ error. FailsBy (S.read_faults input.old) (S.read_faults input.new) error) }
    ensures few { TakesAtMost (S.left input.old) (S.left input.new) most }
    ensures later { S.read_faults input.old ≤ S.read_faults input.new }
    ensures kept { OnOk result (S.read_faults input.new ≡ S.read_faults input.old) }
{
    let mut buffer = [0u8; PIECE];
    let room = most.min(PIECE);
    let piece = &mut buffer[..room];
    let count = match input.take(piece) {
        Ok(count) => count,
        Err(_) => return Err(InputError::ReadFault),
    };
    match bytes.extend_from_slice(&piece[..count]) {
        Ok(()) => Ok(count),
        Err(_) => Err(InputError::Memory),
    }
}
