//! A round's text, in a file or on standard input, and the round that it holds.
ghost use Rattle.std.specs.Prelude.{◌≡◌, IfOk, IfSome, take};
ghost use Rattle.cli.specs.Input.{IsRead, Suffices};

use crate::output::{Status, print, unread};
use round::table::Round;
use std::alloc::Global;
use std::fs::File;
use std::io;
use std::io::{ErrorKind, Read};
use text::reading::read_bounded;
use text::refusal::Refusal;

/// One byte more than the longest text that is accepted: that a text is too long is known without reading it all.
const READ: u64 = 16_385;

/// The text that a reader has, or its first 16,385 bytes if it is longer.
pub fn read_text<R: Read + Drop>(reader: R, heap: Global) -> io::Result<Vec<u8>>
    ensures first { IfSome (R.remaining reader) (λ text. IfOk result
        (λ bytes. bytes.items ≡ take 16385 text)) }
    ensures enough { IfSome (R.remaining reader) (λ text. IfOk result
        (λ bytes. Suffices text bytes.items)) }
{
    let mut bytes = Vec::new(heap);
    reader.take(READ).read_to_end(&mut bytes)?;
    Ok(bytes)
}

/// The round that a text holds, or why the text is refused.
pub fn round_of(text: &[u8]) -> Result<Round, Refusal>
    ensures { IsRead text.now result }
{
    let mut round = Round::fresh();
    read_bounded(&mut round, text)?;
    Ok(round)
}

/// The text in a file, or on standard input if no file is named: as much of it as is read.
fn read_from(rt: &HostRuntime, file: Option<&str>) -> io::Result<Vec<u8>> {
    match file {
        Some(file) => read_text(File::open(rt, file)?, rt.alloc()),
        None => read_text(rt.stdin(), rt.alloc()),
    }
}

/// The same, or, once it is told on standard error that it cannot be read, the status to end with.
pub fn text_in(rt: &HostRuntime, file: Option<&str>) -> anyhow::Result<Result<Vec<u8>, Status>> {
    match read_from(rt, file) {
        Ok(bytes) => Ok(Ok(bytes)),
        Err(error) if error.kind() == ErrorKind::OutOfMemory => Err(error.into()),
        Err(error) => {
            let name = file.unwrap_or("standard input");
            Ok(Err(print(rt, &unread(rt.alloc(), name, &error)?)?))
        }
    }
}
