//! Sections over receipts that are there already: what they ask next, and what they come to.
ghost use Rattle.std.specs.Prelude.{◌≡◌, ◌↔◌, true, false, None, IfOk, IfSome};
ghost use Rattle.cfg_world.specs.Inquiry.{Begun, AsksNext};
ghost use Rattle.cfg_token.specs.SectionCalls.{is_memory, section_on as section_of};
ghost use Rattle.cfg_token.specs.Replays.{IsWhole, Finished};

use crate::file_token::FileToken;
use crate::history::copy_receipts;
use crate::loads::Loads;
use crate::replay::Replay;
use crate::sections::follow_section;
use crate::token_key::TokenKey;
use cfg_types::{CallSettings, Env, OutOfMemory, Seq};
use cfg_world::{Answers, Question, Receipt, Stop};

/// The next question of a section of the token of this key, as [`next_question`](crate::next_question)
/// gives it, on its loads. They have to be those of this key: they name none.
pub fn next_question_on<T: FileToken>(
    loads: &Loads<T>,
    key: &TokenKey,
    env: &Env,
    settings: &CallSettings,
    receipts: &[Receipt],
) -> Result<Option<Question>, OutOfMemory>
    requires kind { T.rules.is_kind key.now ≡ true }
    requires begun { Begun (section_of T.rules key.now loads.now env.now settings.now) receipts.now }
    ensures whole { IfOk result (λ q. (q ≡ None) ↔ IsWhole (section_of T.rules key.now loads.now env.now settings.now) receipts.now) }
    ensures asks { IfOk result (λ q. IfSome q (AsksNext (section_of T.rules key.now loads.now env.now settings.now) receipts.now)) }
{
    let alloc = loads.alloc();
    let mut replay = Replay::new(Seq::of(copy_receipts(alloc, receipts)?));
    let mut noted = Vec::new(alloc);
    match follow_section(
        alloc,
        key,
        env,
        settings,
        loads.kept(),
        loads.last_attempt(),
        &mut replay,
        &mut noted,
    ) {
        Ok(_) => Ok(None),
        Err(Stop::Open) => replay.open_question(alloc),
        Err(Stop::OutOfMemory) => Err(OutOfMemory),
    }
}

/// A section of the token of this key over receipts, as [`finish`](crate::finish) is one, on its loads,
/// with the same errors. They have to be those of this key: they name none.
pub fn finish_on<T: FileToken>(
    loads: &mut Loads<T>,
    key: &TokenKey,
    env: &Env,
    settings: &CallSettings,
    receipts: Seq<Receipt>,
) -> Result<T, T::Error>
    requires kind { T.rules.is_kind key.now ≡ true }
    requires whole { IsWhole (section_of T.rules key.now loads.old env.now settings.now) receipts }
    ensures finished { is_memory T.rules result ≡ false → Finished T.rules key.now env.now settings.now receipts loads.old loads.new result }
    ensures stopped { is_memory T.rules result ≡ true → loads.new ≡ loads.old }
{
    let mut answers = Answers::new(receipts);
    match loads.follow(key, env, settings, &mut answers) {
        Ok(answer) => answer,
        Err(_) => Err(T::out_of_memory()),
    }
}
