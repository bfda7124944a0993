//! The members of a script of an audit: what one call is configured with, and a journal.
ghost use Rattle.std.specs.Prelude.{◌≡◌, map};
ghost use Rattle.serde_json.specs.View.{view};
ghost use Rattle.serde_json.specs.Find.{as_str};
ghost use Rattle.cfg_script.specs.Audits.{form_of_kind, kind_named, or_failed, is_fail as is_fail_of, written_of, answer_form, audit_in};
ghost use Rattle.cfg_script.specs.Gives.{Reads};
ghost use Rattle.cfg_script.specs.Script.{plain_audit};

use crate::fault::{FormError, Wanted, wanting};
use crate::form::{Form, read_item};
use crate::json::{text_of, two_items};
use crate::member_names::Journal;
use crate::members::ListOf;
use crate::moments::ClockMoment;
use crate::object::Object;
use crate::replies::{Command, HttpSent, LookUp, Role, Sent, SignsIn, Sts, Tokens};
use crate::scalars::{Content, UnsignedInteger};
use crate::script::AuditScript;
use crate::settings::{ConfigurationMembers, is_to_sleep, profiles_by};
use cfg_types::{Address, FailKind, Finished, Reply, Seq, Text};
use cfg_world::Answer;
use serde_json::Value;
use std::alloc::Global;

/// What the items of a kind are.
#[derive(Clone, Copy)]
pub(crate) enum ItemForm {
    Moment,
    Number,
    Contents,
    Written,
    Finished,
    Addresses,
    Http,
    Sts,
    Role,
    Token,
    SignIn,
}

fn form_named(name: &str) -> Option<ItemForm>
    ensures { result ≡ form_of_kind name.now }
{
    match name {
        "now" => Some(ItemForm::Moment),
        "jitter" => Some(ItemForm::Number),
        "read" => Some(ItemForm::Contents),
        "write" => Some(ItemForm::Written),
        "run" => Some(ItemForm::Finished),
        "lookup" => Some(ItemForm::Addresses),
        "http" | "imds-token" | "imds-get" => Some(ItemForm::Http),
        "assume-role" | "web-identity" => Some(ItemForm::Sts),
        "role-credentials" => Some(ItemForm::Role),
        "create-token" => Some(ItemForm::Token),
        "sign-in" => Some(ItemForm::SignIn),
        _ => None,
    }
}

#[tactic(auto, unfolding(crate::specs::Audits::kind_named))]
fn read_kind(value: Value) -> Option<(Text, ItemForm)>
    ensures { result ≡ kind_named (view value) }
{
    let name = text_of(value)?;
    let form = form_named(name.as_str())?;
    Some((Text::from_string(name), form))
}

/// The name of a question's kind, and what its items are.
pub(crate) struct Kind;

impl Form for Kind {
    ghost use Rattle.std.specs.Prelude.{List, ℕ};
    ghost use Rattle.cfg_script.specs.Audits.{kind};
    ghost use Rattle.cfg_script.specs.declared.audits.ItemForm.{ItemForm as Item};

    type Read = (Text, ItemForm);

    ghost Plain = { List ℕ × Item };

    ghost seen = { λ k. k };

    ghost form = { kind };

    fn read(alloc: Global, value: Value) -> Result<(Text, ItemForm), FormError> {
        wanting(alloc, Wanted::Kind, read_kind(value))
    }
}

fn is_fail(value: &Value) -> bool
    ensures { result ≡ is_fail_of (as_str (view value.now)) }
{
    match value.as_str() {
        Some(text) => text == "fail",
        None => false,
    }
}

/// What a file holds, or that the read failed.
pub(crate) struct ReadAnswer;

impl Form for ReadAnswer {
    ghost use Rattle.cfg_world.specs.declared.ask.Answer.{Answer as Given};
    ghost use Rattle.cfg_script.specs.Audits.{read_form};

    type Read = Answer;

    ghost Plain = { Given };

    ghost seen = { λ a. a };

    ghost form = { read_form };

    fn read(alloc: Global, value: Value) -> Result<Answer, FormError> {
        if is_fail(&value) {
            return Ok(Answer::Failed(FailKind::Io));
        }
        Ok(Answer::Contents(Content::read(alloc, value)?))
    }
}

#[tactic(auto, unfolding(crate::specs::Audits::written_of))]
fn read_written(value: &Value) -> Option<Answer>
    ensures { result ≡ written_of (view value.now) }
{
    if value.as_bool()? {
        Some(Answer::Written)
    } else {
        None
    }
}

/// That a file was written, or that the write failed.
pub(crate) struct WriteAnswer;

impl Form for WriteAnswer {
    ghost use Rattle.cfg_world.specs.declared.ask.Answer.{Answer as Given};
    ghost use Rattle.cfg_script.specs.Audits.{write_form};

    type Read = Answer;

    ghost Plain = { Given };

    ghost seen = { λ a. a };

    ghost form = { write_form };

    fn read(alloc: Global, value: Value) -> Result<Answer, FormError> {
        if is_fail(&value) {
            return Ok(Answer::Failed(FailKind::Io));
        }
        wanting(alloc, Wanted::Written, read_written(&value))
    }
}

fn finished(given: Result<Finished, FailKind>) -> Answer
    ensures { result ≡ or_failed Answer.Finished given }
{
    match given {
        Ok(finished) => Answer::Finished(finished),
        Err(kind) => Answer::Failed(kind),
    }
}

fn found(given: Result<Seq<Address>, FailKind>) -> Answer
    ensures { result ≡ or_failed Answer.Addresses given }
{
    match given {
        Ok(addresses) => Answer::Addresses(addresses),
        Err(kind) => Answer::Failed(kind),
    }
}

fn replied(given: Result<Reply, FailKind>) -> Answer
    ensures { result ≡ or_failed Answer.Replied given }
{
    match given {
        Ok(reply) => Answer::Replied(reply),
        Err(kind) => Answer::Failed(kind),
    }
}

// The answer that an item of this form is, which is the second of its entry.
fn read_answer(alloc: Global, form: ItemForm, item: Value) -> Result<Answer, FormError>
    ensures { Reads (λ a. a) result (answer_form form (view item)) }
{
    match form {
        ItemForm::Moment => {
            let moment = read_item::<ClockMoment>(alloc, 1, item)?;
            Ok(Answer::Moment(moment))
        }
        ItemForm::Number => {
            let number = read_item::<UnsignedInteger>(alloc, 1, item)?;
            Ok(Answer::Jitter(number))
        }
        ItemForm::Contents => read_item::<ReadAnswer>(alloc, 1, item),
        ItemForm::Written => read_item::<WriteAnswer>(alloc, 1, item),
        ItemForm::Finished => Ok(finished(read_item::<Command>(alloc, 1, item)?)),
        ItemForm::Addresses => Ok(found(read_item::<LookUp>(alloc, 1, item)?)),
        ItemForm::Http => Ok(replied(read_item::<HttpSent>(alloc, 1, item)?)),
        ItemForm::Sts => Ok(replied(read_item::<Sent<Sts>>(alloc, 1, item)?)),
        ItemForm::Role => Ok(replied(read_item::<Sent<Role>>(alloc, 1, item)?)),
        ItemForm::Token => Ok(replied(read_item::<Sent<Tokens>>(alloc, 1, item)?)),
        ItemForm::SignIn => Ok(replied(read_item::<Sent<SignsIn>>(alloc, 1, item)?)),
    }
}

/// The kind of a question, and the answer to it.
pub(crate) struct JournalEntry;

impl Form for JournalEntry {
    ghost use Rattle.std.specs.Prelude.{List, ℕ};
    ghost use Rattle.cfg_world.specs.declared.ask.Answer.{Answer as Given};
    ghost use Rattle.cfg_script.specs.Audits.{entry};

    type Read = (Text, Answer);

    ghost Plain = { List ℕ × Given };

    ghost seen = { λ e. e };

    ghost form = { entry };

    fn read(alloc: Global, value: Value) -> Result<(Text, Answer), FormError> {
        let (kind, item) = wanting(alloc, Wanted::Entry, two_items(value))?;
        let (name, form) = read_item::<Kind>(alloc, 0, kind)?;
        let answer = read_answer(alloc, form, item)?;
        Ok((name, answer))
    }
}

type AuditMembers = ConfigurationMembers<(ListOf<Journal, JournalEntry>, ())>;

// Each member in its place.
#[tactic(auto, unfolding(crate::specs::Audits::audit_in))]
fn audit_by(rows: <AuditMembers as Object>::Read) -> AuditScript
    ensures { plain_audit result ≡ audit_in (⟦<AuditMembers as Object>⟧.seen rows) }
{
    let (variables, (profiles, (sessions, (refused, rows)))) = rows;
    let (selected, (region, (sleep, (service, (journal, ()))))) = rows;
    let profiles = profiles_by(refused, profiles, sessions);
    let sleep = is_to_sleep(sleep);
    AuditScript {
        variables,
        profiles,
        selected,
        region,
        sleep,
        service,
        journal,
    }
}

/// A script of an audit.
pub(crate) struct WholeAudit;

impl Object for WholeAudit {
    ghost use Rattle.std.specs.Prelude.{Ok};
    ghost use Rattle.cfg_base.specs.Gives.{◌>>=◌};
    ghost use Rattle.cfg_script.specs.Audits.{audit_in, audit};
    ghost use Rattle.cfg_script.specs.Script.{PlainAudit, plain_audit};

    type Read = AuditScript;

    type Places = <AuditMembers as Object>::Places;

    ghost Plain = { PlainAudit };

    ghost seen = { plain_audit };

    ghost object_form = { audit };

    ghost read_on = { λ places ms. ⟦<AuditMembers as Object>⟧.read_on places ms >>= λ rows. Ok (audit_in rows) };

    fn empty() -> <AuditMembers as Object>::Places {
        AuditMembers::empty()
    }

    fn put(places: &mut <AuditMembers as Object>::Places, name: &str, value: Value) -> bool {
        AuditMembers::put(places, name, value)
    }

    fn read_places(
        alloc: Global,
        places: <AuditMembers as Object>::Places,
    ) -> Result<AuditScript, FormError> {
        let rows = AuditMembers::read_places(alloc, places)?;
        Ok(audit_by(rows))
    }
}
