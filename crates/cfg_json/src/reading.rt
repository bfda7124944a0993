//! Objects (RFC 8259) at the front of bytes, and alone.
ghost use Rattle.std.specs.Prelude.{◌≡◌, ℕ, List, Ok, Err, IfOk, IsErrOf};
ghost use Rattle.cfg_json.specs.declared.member.Member.{Member};
ghost use Rattle.cfg_json.specs.Objects.{HasObject};
ghost use Rattle.cfg_json.specs.ReadingObjects.{object_answer};
ghost use Rattle.cfg_json.specs.Answers.{Answers, member_list, OpensObject, OpensOther, HasNoObject, OnlyWhiteSpaceFrom, list_answer, only_list_answer, only_answer};

use crate::member::{Member, Members};
use crate::objects::read_object;
use crate::white_space::skip_white_space;
use cfg_types::{JsonError, Seq};
use std::alloc::Global;

#[tactic(auto, using(crate::proofs::AnswerLaws::answers_from_reads), unfolding(crate::specs::ReadingObjects::object_answer))]
fn read_front<'t>(alloc: Global, bytes: &'t [u8]) -> Result<(Vec<Member<'t>>, &'t [u8]), JsonError>
    ensures { Answers (λ p. (p.0.items, p.1.now)) result (object_answer bytes.now) }
{
    let Some((x, inside)) = skip_white_space(bytes).split_first() else {
        return Err(JsonError::NotObject);
    };
    if *x != b'{' {
        return Err(JsonError::NotObject);
    }
    read_object(alloc, inside, bytes.len())
}

#[tactic(auto, unfolding(crate::specs::Answers::only_answer))]
fn read_only<'t>(alloc: Global, bytes: &'t [u8]) -> Result<(Vec<Member<'t>>, &'t [u8]), JsonError>
    ensures { Answers (λ p. (p.0.items, p.1.now)) result (only_answer bytes.now) }
{
    let (list, rest) = read_front(alloc, bytes)?;
    match skip_white_space(rest).split_first() {
        None => Ok((list, rest)),
        Some(_) => Err(JsonError::More),
    }
}

#[tactic(auto, unfolding(crate::specs::Answers::list_answer))]
fn front_list<'t>(alloc: Global, bytes: &'t [u8]) -> Result<Members<'t>, JsonError>
    ensures { Answers member_list result (list_answer bytes.now) }
{
    let (list, rest) = read_front(alloc, bytes)?;
    Ok(Members {
        list: Seq::of(list),
        end: bytes.len().saturating_sub(rest.len()),
    })
}

#[tactic(auto, unfolding(crate::specs::Answers::only_list_answer))]
fn only_list<'t>(alloc: Global, bytes: &'t [u8]) -> Result<Members<'t>, JsonError>
    ensures { Answers member_list result (only_list_answer bytes.now) }
{
    let (list, rest) = read_only(alloc, bytes)?;
    Ok(Members {
        list: Seq::of(list),
        end: bytes.len().saturating_sub(rest.len()),
    })
}

/// The members of the object (RFC 8259) that stands first in the bytes, after white space at most, and
/// the place where it ends, in bytes. What follows the object is not looked at. Its strings are UTF-8, and
/// it has 128 levels at most, its own counted.
///
/// # Errors
///
/// - `NotObject`: the first byte that is no white space is not `{`, or there is none.
/// - `Syntax`: it is `{`, and no prefix of the bytes is such an object behind white space.
/// - `OutOfMemory`: memory runs out.
pub fn members<'t>(alloc: Global, bytes: &'t [u8]) -> Result<Members<'t>, JsonError>
    ensures found { IfOk result (λ m. HasObject bytes.now m.list m.end) }
    ensures only { (list : List Member) (end : ℕ) → HasObject bytes.now list end → Answers member_list result (Ok (list, end)) }

    ensures not_object { IsErrOf result JsonError.NotObject → OpensOther bytes.now }
    ensures opens_other { OpensOther bytes.now → Answers member_list result (Err JsonError.NotObject) }
    ensures syntax { IsErrOf result JsonError.Syntax → OpensObject bytes.now × HasNoObject bytes.now }
    ensures broken { OpensObject bytes.now → HasNoObject bytes.now → Answers member_list result (Err JsonError.Syntax) }
    ensures never_more { IsErrOf result JsonError.More → ⊥ }
{
    front_list(alloc, bytes)
}

/// The members of the object that the bytes are, with white space around it at most, and the place
/// where it ends, in bytes: white space behind it is not counted.
///
/// # Errors
///
/// Those of [`members`], and `More`: an object stands first, and more than white space follows.
pub fn only_members<'t>(alloc: Global, bytes: &'t [u8]) -> Result<Members<'t>, JsonError>
    ensures found { IfOk result (λ m. HasObject bytes.now m.list m.end × OnlyWhiteSpaceFrom bytes.now m.end) }
    ensures only { (list : List Member) (end : ℕ) → HasObject bytes.now list end → OnlyWhiteSpaceFrom bytes.now end
        → Answers member_list result (Ok (list, end)) }

    ensures not_object { IsErrOf result JsonError.NotObject → OpensOther bytes.now }
    ensures opens_other { OpensOther bytes.now → Answers member_list result (Err JsonError.NotObject) }
    ensures syntax { IsErrOf result JsonError.Syntax → OpensObject bytes.now × HasNoObject bytes.now }
    ensures broken { OpensObject bytes.now → HasNoObject bytes.now → Answers member_list result (Err JsonError.Syntax) }
    ensures more { IsErrOf result JsonError.More → (list : List Member) × (end : ℕ) × HasObject bytes.now list end × ¬ (OnlyWhiteSpaceFrom bytes.now end) }
    ensures followed { (list : List Member) (end : ℕ) → HasObject bytes.now list end → ¬ (OnlyWhiteSpaceFrom bytes.now end)
        → Answers member_list result (Err JsonError.More) }
{
    only_list(alloc, bytes)
}
