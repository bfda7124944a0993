//! Laws of an endpoint, each on a call that carries it.
ghost use Rattle.std.specs.Prelude.{◌≡◌, ◌+◌, ◌<◌, List, length, Ok, Some, None as none};
ghost use Rattle.cfg_json.specs.declared.credentials.JsonCredentials.TheVariants as document;
ghost use Rattle.cfg_world.specs.Fits.{Pair};
ghost use Rattle.cfg_world.specs.Held.{Held};
ghost use Rattle.cfg_exchange.specs.Documents.{body_document};
ghost use Rattle.cfg_kept.specs.Kinds.{Value, States};
ghost use Rattle.cfg_providers.specs.CustomSources.{Answer};
ghost use Rattle.cfg_chain.specs.Settings.{ChainSetting};
ghost use Rattle.cfg_chain.specs.Provides.{Provides};
ghost use Rattle.cfg_endpoint.specs.declared.served.Served.{Served as Keys};
ghost use Rattle.cfg_endpoint.specs.Endpoints.{document_of};
ghost use Rattle.cfg_endpoint.specs.Made.{IsWritable};
ghost use Rattle.cfg_endpoint.specs.Devices.{DevicesState};
ghost use Rattle.cfg_endpoint.specs.Calls.{HasNothing, IsReadyFor, HasGone, endpoint_after, HasTokens, Fresh, GoesOn, HasContainer, GoesOnByContainer, Called, requests_of, AreCalls, EachGives};

use crate::devices::EndpointDevices;
use cfg_world::Devices;

/// The document that an endpoint writes is read as what it serves, without an account.
pub fn a_written_document_is_read_back()
    ensures { (s : Keys) → IsWritable s →
        body_document (document_of s) ≡ Ok (document.RefreshableCredentials s.id s.secret s.token none s.expires) }
{}

/// A call of the default chain over an endpoint gives what the endpoint serves: where the chain has nothing but the
/// instance metadata service; the devices from which the calls started have a made endpoint and an early clock, and
/// stand for the journal since; and the session token that is kept, if one is, was given by
/// the endpoint. The call gets two tokens at most, and so many can still be given. Then this holds after the call
/// again, so that a loop carries it on.
pub fn a_call_gives_what_is_served()
    ensures { (over : ChainSetting) (old new : States) (found : List Value) (d : DevicesState) (journal : List Pair)
        (before later : Held DevicesState) (out : Answer) →
        HasNothing over → IsReadyFor d → HasGone d before.devices journal → HasTokens (endpoint_after d journal) → Fresh (endpoint_after d journal) old →
        Provides ⟦<EndpointDevices as Devices>⟧ over old new found before later out → GoesOn d journal new before later out }
{}

/// Calls of the default chain that are made one after another over one world each give what the endpoint serves,
/// where this holds before the first, and 4,294,967,295 tokens were given at most: where the endpoint gets fewer than
/// 4,294,967,296 requests, and where there are fewer than 4,294,967,296 calls, however many requests they make.
pub fn calls_give_what_is_served()
    ensures requests { (over : ChainSetting) (old : States) (d : DevicesState) (journal : List Pair) (before : Held DevicesState) (calls : List Called) →
        HasNothing over → IsReadyFor d → HasGone d before.devices journal → Fresh (endpoint_after d journal) old →
        (endpoint_after d journal).given + requests_of before calls < 4294967296 →
        AreCalls ⟦<EndpointDevices as Devices>⟧ over old before calls → EachGives d.endpoint.served before calls }
    ensures calls { (over : ChainSetting) (old : States) (d : DevicesState) (journal : List Pair) (before : Held DevicesState) (calls : List Called) →
        HasNothing over → IsReadyFor d → HasGone d before.devices journal → Fresh (endpoint_after d journal) old →
        (endpoint_after d journal).given < 4294967296 → length calls < 4294967296 →
        AreCalls ⟦<EndpointDevices as Devices>⟧ over old before calls → EachGives d.endpoint.served before calls }
{}

/// The same of a chain that has one variable, which names a container's endpoint: it gives what is served, with its
/// own expiry, however many tokens were given.
pub fn a_call_of_a_container_gives_what_is_served()
    ensures { (over : ChainSetting) (old new : States) (found : List Value) (d : DevicesState) (journal : List Pair)
        (before later : Held DevicesState) (out : Answer) →
        HasContainer over → IsReadyFor d → HasGone d before.devices journal →
        Provides ⟦<EndpointDevices as Devices>⟧ over old new found before later out → GoesOnByContainer d journal old new before later out }
{}
