//! Laws, each on a call that carries it.
ghost use Rattle.std.specs.Prelude.{◌≡◌, ℕ, List, [], ◌∷◌, true, false, is_ok, IfOk};
ghost use Rattle.cfg_world.specs.Fits.{Pair, EachFits};
ghost use Rattle.cfg_profile.specs.Configuration.{Configuration};
ghost use Rattle.cfg_kept.specs.Kinds.{Value};
ghost use Rattle.cfg_kept.specs.KeptInquiry.{Reads};
ghost use Rattle.cfg_kept.specs.Holds.{Holdings};
ghost use Rattle.cfg_login.specs.declared.asked_by.AskedBy.{AskedBy as Asker};
ghost use Rattle.cfg_types.specs.Classes.{is_not_loaded_answer};
ghost use Rattle.cfg_login.specs.SignIns.{Answer, feature_of, sign_in_credentials};
ghost use Rattle.cfg_login.specs.SignInCauses.{SignInCause};
ghost use Rattle.cfg_world.specs.LastReadings.{last_reading};
ghost use Rattle.cfg_login.specs.Endings.{EndsAfter};
ghost use Rattle.cfg_login.specs.SessionKeys.{IsOfSession, FindsSession};
ghost use Rattle.cfg_login.specs.InNoWay.{NothingInTheWay};
ghost use Rattle.cfg_login.specs.Provides.{ProvidesSignIn};

use cfg_world::Asking;

/// Each answer has its cause: over any part, it is an error exactly where the section gives one, and
/// tells of that. No error says that there was nothing to be loaded.
pub fn answers_have_their_causes()
    ensures loaded { (conf : Configuration) (session : List ℕ) (by : Asker) (found : List Value) (part : List Pair) (out : Answer) →
        Reads (sign_in_credentials conf session by) found part out → is_not_loaded_answer out ≡ false }
    ensures cause { (conf : Configuration) (session : List ℕ) (by : Asker) (found : List Value) (part : List Pair) (out : Answer) →
        Reads (sign_in_credentials conf session by) found part out → SignInCause conf session by found part out }
{}

/// Credentials end after the last reading of the clock in their section.
pub fn credentials_have_not_expired()
    ensures { (conf : Configuration) (session : List ℕ) (by : Asker) (found : List Value) (part : List Pair) (out : Answer) →
        EachFits part → Reads (sign_in_credentials conf session by) found part out → IfOk out (λ keys. EndsAfter (last_reading part) keys.expiry) }
{}

/// So do those that a call of [`LoginCredentialsProvider`](crate::LoginCredentialsProvider) gives, by the last
/// reading of its part.
pub fn a_call_reads_no_expired_session<A: Asking>()
    ensures { (conf : Configuration) (session : List ℕ) (by : Asker) (old new : A) (before later : Holdings) (out : Answer)
        (call : ProvidesSignIn ⟦<A as Asking>⟧ conf session by old before new later out) →
        IfOk out (λ keys. EndsAfter (last_reading call.ends.part) keys.expiry) }
{}

/// Credentials are named `Login`, have a session token, an end and an account, and the one feature that
/// tells who asked. A kept token that is handed out has to have come of a session.
pub fn credentials_are_of_a_session()
    ensures { (conf : Configuration) (session : List ℕ) (by : Asker) (found : List Value) (part : List Pair) (out : Answer) →
        FindsSession found → Reads (sign_in_credentials conf session by) found part out → IfOk out (IsOfSession (feature_of by ∷ [])) }
{}

/// Where a kept token is handed out; or a folder is known, the file holds a token that is not refused,
/// and a refresh that is due is granted, there are credentials.
pub fn nothing_in_the_way_gives_credentials()
    ensures { (conf : Configuration) (session : List ℕ) (by : Asker) (found : List Value) (part : List Pair) (out : Answer) →
        Reads (sign_in_credentials conf session by) found part out → NothingInTheWay conf found part → is_ok out ≡ true }
{}
