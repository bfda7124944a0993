//! Laws, each on a call that carries it.
ghost use Rattle.std.specs.Prelude.{◌≡◌, ◌⊎◌, ◌<◌, ℤ, pos, ◌*ℤ◌, List, Option, true, is_ok, IfOk};
ghost use Rattle.cfg_base.specs.Instant.{number};
ghost use Rattle.cfg_world.specs.Fits.{Pair};
ghost use Rattle.cfg_profile.specs.Configuration.{Configuration};
ghost use Rattle.cfg_token.specs.declared.token_key.TokenKey.{TokenKey as Key};
ghost use Rattle.cfg_kept.specs.Kinds.{Value, States};
ghost use Rattle.cfg_kept.specs.KeptInquiry.{Reads, Begins};
ghost use Rattle.cfg_kept.specs.Holds.{Holdings, HoldsBreaks};
ghost use Rattle.cfg_sso.specs.declared.config.SsoProviderConfig.{SsoProviderConfig as Asked};
ghost use Rattle.cfg_sso.specs.RoleKeys.{Answer, moment_at};
ghost use Rattle.cfg_sso.specs.SsoCredentials.{sso_credentials};
ghost use Rattle.cfg_sso.specs.SsoCauses.{SsoCause};
ghost use Rattle.cfg_sso.specs.BearerTokens.{Bearer, bearer_token, BearerCause, IsUnexpired};
ghost use Rattle.cfg_sso.specs.Provides.{ProvidesSso, ProvidesBearer};
ghost use Rattle.cfg_sso.specs.RoleRequests.{AsksNoRole, SendsOnce, SendsNothing};
ghost use Rattle.cfg_sso.specs.InNoWay.{NothingInTheWay};

use cfg_world::Asking;

/// Each answer has its cause: over any part, it is an error exactly where there is no token, or else
/// the request gives nothing, and tells of that.
pub fn answers_have_their_causes()
    ensures credentials { (conf : Configuration) (sso : Asked) (found : List Value) (part : List Pair) (out : Answer) →
        Reads (sso_credentials conf sso) found part out → SsoCause conf sso found part out }
    ensures token { (conf : Configuration) (key : Key) (found : List Value) (part : List Pair) (out : Bearer) →
        Reads (bearer_token conf key) found part out → BearerCause conf key found part out }
{}

/// Exactly one `GetRoleCredentials` is sent, with the token that the part before it gave and no other,
/// which ends after the last reading of the clock in that part. Or nothing is sent, and there are no
/// credentials. A part that has only begun, too, has that one request, or none.
pub fn one_request_with_an_unexpired_token()
    ensures whole { (conf : Configuration) (sso : Asked) (found : List Value) (part : List Pair) (out : Answer) →
        Reads (sso_credentials conf sso) found part out → SendsOnce conf sso found part ⊎ SendsNothing part out }
    ensures begun { (conf : Configuration) (sso : Asked) (old new : Option States) (found : List Value) (part : List Pair) →
        Begins (sso_credentials conf sso) old found part new → SendsOnce conf sso found part ⊎ AsksNoRole part }
{}

/// So does a call of [`SsoCredentialsProvider`](crate::SsoCredentialsProvider): it sends exactly one
/// `GetRoleCredentials`, with a token that ends after the last reading of the clock before it, or nothing for a role,
/// and then it gives no credentials. A call for which memory ran out sent that one request, or none.
pub fn a_call_sends_no_expired_token<A: Asking>()
    ensures answered { (conf : Configuration) (sso : Asked) (old new : A) (before later : Holdings) (out : Answer)
        (call : ProvidesSso ⟦<A as Asking>⟧ conf sso old before new later out) →
        SendsOnce conf sso call.ends.found call.ends.part ⊎ SendsNothing call.ends.part out }
    ensures interrupted { (conf : Configuration) (sso : Asked) (old new : A) (before later : Holdings)
        (call : HoldsBreaks ⟦<A as Asking>⟧ (sso_credentials conf sso) old before new later) → SendsOnce conf sso call.found call.part ⊎ AsksNoRole call.part }
{}

/// A bearer token ends after the last reading of the clock in its part, also that of a call of
/// [`SsoTokenProvider`](crate::SsoTokenProvider).
pub fn a_call_gives_no_expired_token<A: Asking>()
    ensures whole { (conf : Configuration) (key : Key) (found : List Value) (part : List Pair) (out : Bearer) →
        Reads (bearer_token conf key) found part out → IfOk out (IsUnexpired part) }
    ensures answered { (conf : Configuration) (key : Key) (old new : A) (before later : Holdings) (out : Bearer)
        (call : ProvidesBearer ⟦<A as Asking>⟧ conf key old before new later out) → IfOk out (IsUnexpired call.ends.part) }
{}

/// Where a kept token is handed out or the home directory is known, the token is in time or a refresh
/// renews it, and the request is granted, there are credentials.
pub fn nothing_in_the_way_gives_credentials()
    ensures { (conf : Configuration) (sso : Asked) (found : List Value) (part : List Pair) (out : Answer) (cause : SsoCause conf sso found part out) →
        NothingInTheWay conf sso found cause.token_part cause.role_part → is_ok out ≡ true }
{}

/// An expiry in milliseconds is a moment of as many nanoseconds as they are, at both ends of 64 bits too.
pub fn expiries_are_exact()
    ensures number { (millis : ℤ) → number (moment_at millis) ≡ millis *ℤ pos 1000000 }
    ensures below { (millis : ℤ) → (moment_at millis).nanos < 1000000000 }
{}
