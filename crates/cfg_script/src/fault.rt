//! Where bytes are no script, and what is wanted there.
ghost use Rattle.std.specs.Prelude.{◌≡◌, ℕ, Some, None, IfOk, IfErr};
ghost use Rattle.cfg_script.specs.Faults.{here as here_wanting, within as within_step};
ghost use Rattle.cfg_script.specs.declared.fault.FormError.TheVariants as error;

use cfg_types::{OutOfMemory, Seq, Text};
use std::alloc::{AllocError, AllocFailed, Global};

/// A step of the way from a script's object to a value in it.
#[derive(Drop)]
pub enum Step {
    /// To the member of this name.
    Member(Text),
    /// To the item at this place, counted from 0.
    Item(usize),
}

/// What is wanted at a place of a script.
#[derive(Clone, Copy, Debug, PartialEq, Eq)]
pub enum Wanted {
    /// A script's object.
    Object,
    /// A name that belongs to its object.
    KnownName,
    /// A member that is there.
    Present,
    /// A list.
    List,
    /// A text.
    Text,
    /// True or false.
    Boolean,
    /// A text, or null.
    TextOrNull,
    /// A variable's name, and a text or null.
    Variable,
    /// A section's name, and a list of its properties.
    Section,
    /// A key and its value.
    Property,
    /// No list of sections beside the refusal of all, not even an empty one.
    RefusedAlone,
    /// An object of how calls are sent.
    Service,
    /// A whole number of 32 bits without sign.
    Attempts,
    /// An object of limits of time.
    Timeouts,
    /// A whole number of calls, from 1 to 100.
    Calls,
    /// A file's path, and its content or null.
    File,
    /// A text, or an object of hexadecimal digits.
    Content,
    /// Two hexadecimal digits for each byte, in either case.
    HexDigits,
    /// Whole seconds of any sign, or these and nanoseconds, less than a second of them.
    Moment,
    /// A moment from 0 seconds on.
    ClockMoment,
    /// A whole number of 64 bits without sign.
    UnsignedInteger,
    /// A whole number of 64 bits with sign.
    SignedInteger,
    /// A command's status, output and errors, or that it failed.
    Command,
    /// A whole number of 32 bits with sign.
    CommandStatus,
    /// A list of addresses, or that the look-up failed.
    LookUp,
    /// The text of an address: one of RFC 4291, section 2.2, or four decimal numbers up to 255.
    Address,
    /// An object of lists of replies.
    Replies,
    /// A status, headers and a body, or that the send failed.
    HttpReply,
    /// A whole number from 100 to 599.
    HttpStatus,
    /// A header's name and its value.
    Header,
    /// A name of a header, as RFC 9110 has them.
    HeaderName,
    /// What a service grants, a refusal, null where it may be, or that the send failed.
    Reply,
    /// The name of what a service refuses for.
    RefusalKind,
    /// A list of 1 to 16 callers.
    Callers,
    /// An object of the lists of a caller's devices.
    Caller,
    /// The name of a question's kind, and what it was answered.
    Entry,
    /// The name of a question's kind.
    Kind,
    /// That a file was written, or that it failed.
    Written,
    /// The name of an endpoint's mode.
    Mode,
    /// No role beside the mode of a container.
    NoRole,
    /// The number of a call, from 1 to 100.
    CallNumber,
}

/// A value of another form than is wanted at its place.
#[derive(Drop)]
pub struct Fault {
    /// The way to the value, from the script's object on. It is empty for the object itself, and leads to
    /// its own place for a member that is missing.
    pub path: Seq<Step>,
    /// What is wanted there.
    pub wanted: Wanted,
}

/// A place in a text, as serde_json counts: lines from 1, and columns in bytes.
#[derive(Clone, Copy, Debug, PartialEq, Eq)]
pub struct Position {
    /// The line, counted from 1.
    pub line: usize,
    /// The byte in its line, counted from 1. At the end of the text, how many bytes the line has.
    pub column: usize,
}

/// Why bytes are no script.
#[derive(Drop)]
pub enum ScriptFault {
    /// They are no JSON in UTF-8 from here on, or have more than 127 levels.
    NoJson(Position),
    /// This is the first value of another form.
    Form(Fault),
}

/// Why a value was not read.
#[derive(Drop)]
pub(crate) enum FormError {
    /// The value, or one in it, is of another form.
    Fault(Fault),
    OutOfMemory,
}

impl From<OutOfMemory> for FormError {
    ghost from_gives = { λ _ e. e ≡ error.OutOfMemory };

    fn from(_: OutOfMemory) -> FormError {
        FormError::OutOfMemory
    }
}

impl From<AllocError> for FormError {
    ghost from_gives = { λ _ e. e ≡ error.OutOfMemory };

    fn from(_: AllocError) -> FormError {
        FormError::OutOfMemory
    }
}

impl<T: Drop> From<AllocFailed<T>> for FormError {
    ghost from_gives = { λ _ e. e ≡ error.OutOfMemory };

    fn from(_: AllocFailed<T>) -> FormError {
        FormError::OutOfMemory
    }
}

/// A fault of the value itself.
pub(crate) fn here(alloc: Global, wanted: Wanted) -> Fault
    ensures { result ≡ here_wanting wanted }
{
    Fault {
        path: Seq::of(Vec::new(alloc)),
        wanted,
    }
}

/// The fault, seen from one step further out.
pub(crate) fn within(step: Step, fault: Fault) -> Result<Fault, OutOfMemory>
    ensures { IfOk result (λ f. f ≡ within_step step fault) }
{
    let Fault { path, wanted } = fault;
    let mut steps = path.into_vec();
    steps.insert(0, step)?;
    Ok(Fault {
        path: Seq::of(steps),
        wanted,
    })
}

/// A fault of the member of this name.
pub(crate) fn member_fault(alloc: Global, name: Text, wanted: Wanted) -> Result<Fault, OutOfMemory>
    ensures { IfOk result (λ f. f ≡ within_step (Step.Member name) (here_wanting wanted)) }
{
    within(Step::Member(name), here(alloc, wanted))
}

/// What was read, or else that this is wanted.
pub(crate) fn wanting<T>(alloc: Global, wanted: Wanted, read: Option<T>) -> Result<T, FormError>
    ensures read { IfOk result (λ x. read ≡ Some x) }
    ensures none { IfErr result (λ e. (read ≡ None) × (e ≡ error.Fault (here_wanting wanted))) }
{
    match read {
        Some(read) => Ok(read),
        None => Err(FormError::Fault(here(alloc, wanted))),
    }
}
