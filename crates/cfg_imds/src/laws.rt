//! Laws, each on a call that carries it.
ghost use Rattle.std.specs.Prelude.{◌≡◌, ◌↔◌, ℕ, List, [], Option, None, true, false, Result, Err};
ghost use Rattle.std.specs.Result.{result_err};
ghost use Rattle.cfg_types.specs.declared.errors.imds.EndpointMode.{EndpointMode as Mode};
ghost use Rattle.cfg_types.specs.declared.errors.imds.ImdsError.{ImdsError};
ghost use Rattle.cfg_world.specs.Fits.{Pair};
ghost use Rattle.cfg_world.specs.Inquiry.{Reads, Begun};
ghost use Rattle.cfg_profile.specs.Configuration.{Configuration};
ghost use Rattle.cfg_imds.specs.declared.endpoint.Endpoint.{Endpoint as Place};
ghost use Rattle.cfg_imds.specs.Causes.{why_asked, last_fault, why_no_text, settled_error};
ghost use Rattle.cfg_imds.specs.Clients.{ClientRules, place_of, is_usable, settle, fetch, get};
ghost use Rattle.cfg_imds.specs.Endpoints.{IsEndpoint};
ghost use Rattle.cfg_imds.specs.Paths.{is_path, IsPath};
ghost use Rattle.cfg_imds.specs.SettledParts.{SettledPart};
ghost use Rattle.cfg_imds.specs.Setups.{ClientSetup, IsClient, IsAskedClient};
ghost use Rattle.cfg_imds.specs.Settles.{Settled};
ghost use Rattle.cfg_imds.specs.Tokens.{Token};

/// A settle first reads the clock. A kept token is handed out, and nothing more is asked, exactly where
/// more than 120 seconds of it are left at that moment; else a new one is asked for in attempts, the
/// clock is read once more, and the last reply and that reading decide.
pub fn a_session_token_is_kept_or_new()
    ensures { (client : ClientRules) (kept : Option Token) (part : List Pair) (out : Settled) →
        Reads (settle client kept) part out → SettledPart client.service (place_of client.endpoint) kept part out }
{}

/// After a settle that was refused no token is kept.
pub fn a_refusal_keeps_no_token()
    ensures { (client : ClientRules) (kept left : Option Token) (part : List Pair) (e : ImdsError) →
        Reads (settle client kept) part (Err e, left) → left ≡ None }
{}

/// Nothing is asked for a path that is none, nor at an endpoint that is none.
pub fn an_unusable_path_asks_nothing()
    ensures { (client : ClientRules) (kept : Option Token) (path : List ℕ) (part : List Pair) →
        is_usable client.endpoint path ≡ false → Begun (get client kept path) part → part ≡ [] }
{}

/// A path is a text that begins with `/` and that the grammar of `http_uri` allows.
pub fn a_path_is_a_uri()
    ensures { (text : List ℕ) → (is_path text ≡ true) ↔ IsPath text }
{}

/// A configuration, and what was given in place of it, name one endpoint, and a setup one client. So do a
/// provider's configuration and the client that it was given, if any.
pub fn a_client_has_one_endpoint()
    ensures endpoint { (conf : Configuration) (given : Option (List ℕ)) (mode : Option Mode) (a b : Place) →
        IsEndpoint conf given mode a → IsEndpoint conf given mode b → a ≡ b }
    ensures client { (setup : ClientSetup) (a b : ClientRules) → IsClient setup a → IsClient setup b → a ≡ b }
    ensures asked { (given : Option ClientRules) (conf : Configuration) (a b : ClientRules) →
        IsAskedClient given conf a → IsAskedClient given conf b → a ≡ b }
{}

/// The error of a settle, of a fetch and of a get is the one that their part shows, and there is none
/// where it shows none.
pub fn a_metadata_error_has_its_cause()
    ensures settle { (client : ClientRules) (kept : Option Token) (part : List Pair) (out : Settled) →
        Reads (settle client kept) part out → settled_error out ≡ why_asked part }
    ensures fetch { (client : ClientRules) (path token : List ℕ) (part : List Pair) (out : Result Pair ImdsError) →
        Reads (fetch client path token) part out → result_err out ≡ last_fault part }
    ensures get { (client : ClientRules) (kept : Option Token) (path : List ℕ) (part : List Pair) (out : Settled) →
        Reads (get client kept path) part out → settled_error out ≡ why_no_text client path part }
{}
