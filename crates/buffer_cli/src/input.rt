//! Reading an input to its end, up to a limit, piece by piece.
ghost use Rattle.std.specs.Prelude.{◌≡◌, ℕ, ◌<◌, ◌≤◌, List, length, vec_len, IfOk};
ghost use Rattle.outer.specs.Count.{Rose};
ghost use Rattle.outer.specs.Source.{Gives};
ghost use Rattle.buffer_cli.specs.Input.{HasRead, ReadsMore};

use outer::Source;
use std::alloc::{AllocError, Global};

/// The most bytes that an input may have: 2^26.
const MAX_INPUT: usize = 1 << 26;

/// How many bytes are asked for at a time.
const CHUNK: usize = 1 << 16;

/// Why an input wasn't read to its end.
#[derive(Clone, Copy, Debug, PartialEq, Eq)]
pub(crate) enum InputFault {
    /// The source failed.
    Failed,
    /// It gave more than 2^26 bytes.
    TooLong,
    NoMemory,
}

impl From<AllocError> for InputFault {
    ghost use Rattle.std.specs.Prelude.{◌≡◌};
    ghost use Rattle.buffer_cli.specs.declared.input.InputFault.TheVariants.{NoMemory};

    ghost from_gives = { λ _ fault. fault ≡ NoMemory };

    fn from(_error: AllocError) -> Self {
        InputFault::NoMemory
    }
}

/// Room for a read.
fn zeros(alloc: Global, count: usize) -> Result<Vec<u8>, AllocError>
    ensures { IfOk result (λ v. vec_len v ≡ count) }
{
    vec![in alloc; 0u8; count]
}

/// Reads once, to the end of `bytes`, and answers how many bytes there were.
fn read_more<I: Source>(
    input: &mut I,
    chunk: &mut [u8],
    bytes: &mut Vec<u8>,
) -> Result<usize, InputFault>
    requires { 0 < length chunk.old }
    ensures read { (more : List ℕ) × Gives more (I.left input.old) (I.left input.new)
        × ReadsMore result (length chunk.old) bytes.old bytes.new more (I.left input.old) }
    ensures count { I.faults input.old ≤ I.faults input.new }
    ensures failed { result ≡ Err InputFault.Failed → Rose (I.faults input.old) (I.faults input.new) }
{
    let Ok(count) = input.read(chunk) else {
        return Err(InputFault::Failed);
    };
    bytes.extend_from_slice(&chunk[..count])?;
    Ok(count)
}

/// Reads a source to its end.
pub(crate) fn read_to_end<I: Source>(alloc: Global, input: &mut I) -> Result<Vec<u8>, InputFault>
    ensures read { HasRead result I.left input.old input.new }
    ensures count { I.faults input.old ≤ I.faults input.new }
    ensures failed { result ≡ Err InputFault.Failed → Rose (I.faults input.old) (I.faults input.new) }
{
    let mut bytes = Vec::new(alloc);
    let mut chunk = zeros(alloc, CHUNK)?;
    while bytes.len() <= MAX_INPUT {
        let room = CHUNK.min(MAX_INPUT + 1 - bytes.len());
        match read_more(input, &mut chunk[..room], &mut bytes) {
            Ok(0) => return Ok(bytes),
            Ok(_) => {}
            Err(fault) => return Err(fault),
        }
    }
    Err(InputFault::TooLong)
}
