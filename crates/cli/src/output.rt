//! What a program prints, and how it ends.
ghost use Rattle.std.specs.Prelude.{◌≡◌, [], ◌∷◌, ◌++◌, IfOk, IfSome};
ghost use Rattle.std.specs.Process.{exit_status};
ghost use Rattle.cli.specs.Replies.{Prints, error_line, unread_line};
ghost use Rattle.cli.specs.Statuses.{number_of};

use std::alloc::{AllocError, Global};
use std::fmt::Display;
use std::process::ExitCode;

/// How a program ends.
#[derive(Clone, Copy, Debug, PartialEq, Eq)]
pub enum Status {
    /// it gave an answer, or the help that it was asked for
    Answered,
    /// what it was given to read, or to work on, is refused
    Refused,
    /// it was started with words that it does not take
    Misused,
    /// a file, or standard input, could not be read
    Unread,
}

impl Status {
    /// The number that the program's process ends with.
    pub fn number(self) -> u8
        ensures { result ≡ number_of self }
    {
        match self {
            Status::Answered => 0,
            Status::Refused => 1,
            Status::Misused => 2,
            Status::Unread => 3,
        }
    }
}

impl From<Status> for ExitCode {
    ghost from_gives = { λ status code. exit_status code ≡ number_of status };

    fn from(status: Status) -> ExitCode {
        ExitCode::from(status.number())
    }
}

/// What a program prints of what it was given, and how it ends.
#[derive(Debug, Drop)]
pub struct Reply {
    /// on standard output
    pub out: String,
    /// on standard error
    pub told: String,
    pub status: Status,
}

impl Reply {
    /// What is shown, as it is, on standard output alone.
    pub fn of<D: Display>(alloc: Global, shown: &D, status: Status) -> Result<Reply, AllocError>
        ensures { IfOk result
            (λ reply. IfSome (D.output shown.now) (λ text. Prints reply text [] status)) }
    {
        Ok(Reply {
            out: format!(in alloc; "{shown}")?,
            told: String::new(alloc),
            status,
        })
    }
}

/// An answer, whose lines end with a line feed each.
pub fn answered<D: Display>(alloc: Global, answer: &D) -> Result<Reply, AllocError>
    ensures { IfOk result
        (λ reply. IfSome (D.output answer.now) (λ text. Prints reply text [] Status.Answered)) }
{
    Reply::of(alloc, answer, Status::Answered)
}

/// A line that says that something is refused, and why.
pub fn refused<D: Display>(alloc: Global, refusal: &D) -> Result<Reply, AllocError>
    ensures { IfOk result (λ reply. IfSome (D.output refusal.now)
        (λ text. Prints reply (text ++ 10 ∷ []) [] Status.Refused)) }
{
    Reply::of(alloc, &format_args!("{refusal}\n"), Status::Refused)
}

/// The same, and on standard error a line of what is wrong.
pub fn refused_for<D: Display, E: Display>(
    alloc: Global,
    refusal: &D,
    fault: &E,
) -> Result<Reply, AllocError>
    ensures { IfOk result (λ reply. IfSome (D.output refusal.now) (λ text.
        IfSome (E.output fault.now) (λ words.
        Prints reply (text ++ 10 ∷ []) (error_line words) Status.Refused))) }
{
    let mut reply = refused(alloc, refusal)?;
    reply.told = format!(in alloc; "error: {fault}\n")?;
    Ok(reply)
}

/// Why a file, or standard input, could not be read, on standard error alone.
pub fn unread<E: Display>(alloc: Global, name: &str, error: &E) -> Result<Reply, AllocError>
    ensures { IfOk result (λ reply. IfSome (E.output error.now)
        (λ why. Prints reply [] (unread_line name.now why) Status.Unread)) }
{
    Ok(Reply {
        out: String::new(alloc),
        told: format!(in alloc; "error: {name}: {error}\n")?,
        status: Status::Unread,
    })
}

/// Prints a reply on both streams, and gives the status to end with.
pub fn print(rt: &HostRuntime, reply: &Reply) -> anyhow::Result<Status> {
    let (told, out) = (&reply.told, &reply.out);
    eprint!(rt; "{told}")?;
    print!(rt; "{out}")?;
    Ok(reply.status)
}
