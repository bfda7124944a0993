//! Full addresses of a container's credentials, and which of them may be asked.
ghost use Rattle.std.specs.Prelude.{◌≡◌, IfOk, true, false, Some, option_copied};
ghost use Rattle.cfg_base.specs.Text.{characters};
ghost use Rattle.http_uri.specs.Grammar.{authority_host};
ghost use Rattle.http_uri.specs.Uri.{uri_scheme, uri_authority, uri_data};
ghost use Rattle.cfg_world.specs.Follows.{Follows};
ghost use Rattle.std.specs.List.{list_all};
ghost use Rattle.cfg_exchange.specs.Addresses.{is_allowed as is_allowed_of};
ghost use Rattle.cfg_exchange.specs.FullUris.{IsBareHost, IsAddressOf, IsHostNamed, IsNamed, IsFullUri};
ghost use Rattle.cfg_exchange.specs.Targets.{allowed_if as allowed_if_of, looked_up as looked_up_of, at_name as at_name_of, full_target as full_target_of};
ghost use Rattle.cfg_exchange.specs.Validates.{FollowsText, is_memory, Validates, Unchecked};

use crate::addresses::is_full_uri_ip_allowed;
use crate::target::{Target, full_target};
use cfg_types::{Address, FailKind, InvalidFullUriError, OutOfMemory, Seq, Text, TryCopy};
use cfg_world::{Asking, Devices, Stop, World, look_up};
use http_uri::{Uri, UriError};
use std::alloc::Global;

/// What the text of a full address names.
pub enum FullUri {
    /// It is no URI.
    Unreadable,
    /// It is a URI without a host.
    Hostless,
    /// It has a host, and no scheme.
    Schemeless,
    /// It is HTTPS, at this target.
    Secure(Target),
    /// It is not HTTPS, and its host is this address.
    AtAddress { target: Target, address: Address },
    /// It is not HTTPS, and its host is this name.
    AtName { target: Target, host: Text },
}

impl Drop for FullUri {
    fn drop(self) {
        match self {
            FullUri::Unreadable => {}
            FullUri::Hostless => {}
            FullUri::Schemeless => {}
            FullUri::Secure(_) => {}
            FullUri::AtAddress {
                target: _,
                address: _,
            } => {}
            FullUri::AtName { target: _, host: _ } => {}
        }
    }
}

impl TryCopy for FullUri {
    fn copy(&self, alloc: Global) -> Result<FullUri, OutOfMemory> {
        Ok(match self {
            FullUri::Unreadable => FullUri::Unreadable,
            FullUri::Hostless => FullUri::Hostless,
            FullUri::Schemeless => FullUri::Schemeless,
            FullUri::Secure(target) => FullUri::Secure(target.copy(alloc)?),
            FullUri::AtAddress { target, address } => FullUri::AtAddress {
                target: target.copy(alloc)?,
                address: *address,
            },
            FullUri::AtName { target, host } => FullUri::AtName {
                target: target.copy(alloc)?,
                host: host.copy(alloc)?,
            },
        })
    }
}

// A host without its brackets, where it has them.
fn bare_host(host: &str) -> &str
    ensures { IsBareHost host.now result.now }
{
    let Some(rest) = host.strip_prefix('[') else {
        return host;
    };
    match rest.strip_suffix(']') {
        Some(inside) => inside,
        None => host,
    }
}

fn address_of(host: &str) -> Option<Address>
    ensures { IsAddressOf host.now result }
{
    Address::parse(host)
}

// What an address names that is not HTTPS, by its host.
fn at_host(alloc: Global, target: Target, host: &str) -> Result<FullUri, OutOfMemory>
    ensures { IfOk result (IsHostNamed target host.now) }
{
    match address_of(bare_host(host)) {
        Some(address) => Ok(FullUri::AtAddress { target, address }),
        None => {
            let host = Text::of(alloc, host)?;
            Ok(FullUri::AtName { target, host })
        }
    }
}

// What a URI names.
#[tactic(auto, using(crate::proofs::Naming::naming_steps))]
fn named(alloc: Global, uri: &Uri) -> Result<FullUri, OutOfMemory>
    ensures { IfOk result (IsNamed (uri_scheme uri.now) (uri_authority uri.now) (uri_data uri.now)) }
{
    let Some(authority) = uri.authority() else {
        return Ok(FullUri::Hostless);
    };
    let Some(scheme) = uri.scheme_str() else {
        return Ok(FullUri::Schemeless);
    };
    let target = full_target(alloc, uri, scheme, authority.as_str())?;
    if scheme == "https" {
        return Ok(FullUri::Secure(target));
    }
    let named = at_host(alloc, target, authority.host())?;
    Ok(named)
}

/// What the text of a full address names, by what `http_uri` reads. A host that is an address may
/// stand in brackets. Nothing is asked. `OutOfMemory` where memory runs out.
pub fn read_full_uri(alloc: Global, uri: &str) -> Result<FullUri, OutOfMemory>
    ensures { IfOk result (IsFullUri uri.now) }
{
    match Uri::from_str(alloc, uri) {
        Ok(uri) => {
            let named = named(alloc, &uri)?;
            Ok(named)
        }
        Err(UriError::Invalid(_)) => Ok(FullUri::Unreadable),
        Err(UriError::OutOfMemory) => Err(OutOfMemory),
    }
}

fn allowed_if(target: Target, is_allowed: bool) -> Result<Target, InvalidFullUriError>
    ensures { result ≡ allowed_if_of target is_allowed }
{
    if is_allowed {
        Ok(target)
    } else {
        Err(InvalidFullUriError::DisallowedIP)
    }
}

fn is_allowed(address: Address) -> bool
    ensures { result ≡ is_allowed_of address }
{
    is_full_uri_ip_allowed(&address)
}

fn all_allowed(addresses: &[Address]) -> bool
    ensures { result ≡ list_all is_allowed_of addresses.now }
{
    addresses.iter().all(|address| is_allowed(*address))
}

fn looked_up(
    target: Target,
    found: Result<Seq<Address>, FailKind>,
) -> Result<Target, InvalidFullUriError>
    ensures { result ≡ looked_up_of target found }
{
    match found {
        Ok(addresses) => allowed_if(target, all_allowed(addresses.as_slice())),
        Err(_) => Err(InvalidFullUriError::DnsLookupFailed),
    }
}

#[tactic(auto, using(cfg_world::proofs::Inquiries::asking_steps))]
fn at_name<A: Asking>(
    alloc: Global,
    dns: bool,
    target: Target,
    host: Text,
    asking: &mut A,
) -> Result<Result<Target, InvalidFullUriError>, Stop>
    ensures { Follows ⟦<A as Asking>⟧ (at_name_of dns target host) asking.old asking.new result }
{
    if !dns {
        return Ok(Err(InvalidFullUriError::NoDnsResolver));
    }
    let found = look_up(alloc, host, asking)?;
    let outcome = looked_up(target, found);
    Ok(outcome)
}

impl FullUri {
    /// The target, where it may be asked, by the rule and with the errors of [`validate_full_uri`].
    /// Where it is not HTTPS, its host is a name, and `dns` is set, the addresses of the host are asked
    /// for, and else nothing.
    #[tactic(auto, using(cfg_world::proofs::Inquiries::asking_steps), unfolding(crate::specs::Targets::full_target))]
    pub fn into_target<A: Asking>(
        self,
        alloc: Global,
        dns: bool,
        asking: &mut A,
    ) -> Result<Result<Target, InvalidFullUriError>, Stop>
        ensures { Follows ⟦<A as Asking>⟧ (full_target_of dns self) asking.old asking.new result }
    {
        match self {
            FullUri::Unreadable => Ok(Err(InvalidFullUriError::InvalidUri)),
            FullUri::Hostless => Ok(Err(InvalidFullUriError::MissingHost)),
            FullUri::Schemeless => Ok(Err(InvalidFullUriError::InvalidUri)),
            FullUri::Secure(target) => Ok(Ok(target)),
            FullUri::AtAddress { target, address } => {
                let outcome = allowed_if(target, is_full_uri_ip_allowed(&address));
                Ok(outcome)
            }
            FullUri::AtName { target, host } => {
                let outcome = at_name(alloc, dns, target, host, asking)?;
                Ok(outcome)
            }
        }
    }
}

// The target of a full address.
fn follow_full_uri<A: Asking>(
    alloc: Global,
    uri: &str,
    dns: bool,
    asking: &mut A,
) -> Result<Result<Target, InvalidFullUriError>, Stop>
    ensures { FollowsText ⟦<A as Asking>⟧ uri.now dns asking.old asking.new result }
{
    let named = read_full_uri(alloc, uri)?;
    named.into_target(alloc, dns, asking)
}

/// The target of a full address of a container's credentials. HTTPS may go anywhere. Else the host has
/// to be an allowed address (`is_full_uri_ip_allowed`), in brackets or not, or a name whose addresses
/// are all allowed; a look-up that answers no address at all refuses nothing. `dns` says whether there is
/// a resolver for names. The journal gains the look-up of the host, where that is asked, and nothing
/// else.
///
/// # Errors
///
/// - `InvalidUri`: `http_uri` reads the text as no URI, or it has a host and no scheme.
/// - `MissingHost`: it has no host.
/// - `NoDnsResolver`: the host is a name, and there is no resolver.
/// - `DnsLookupFailed`: the host is a name, and its look-up failed.
/// - `DisallowedIP`: the host is an address that is not allowed, or a name that has one.
/// - `OutOfMemory`: memory runs out. The journal then has gained that look-up, or nothing.
pub fn validate_full_uri<D: Devices>(
    alloc: Global,
    uri: &str,
    dns: bool,
    world: &mut World<D>,
) -> Result<Target, InvalidFullUriError>
    ensures validates { is_memory result ≡ false → Validates ⟦<D as Devices>⟧ uri.now dns world.old world.new result }
    ensures memory { is_memory result ≡ true → Unchecked ⟦<D as Devices>⟧ uri.now dns world.old world.new }
{
    match follow_full_uri(alloc, uri, dns, world) {
        Ok(outcome) => outcome,
        Err(_) => Err(InvalidFullUriError::OutOfMemory),
    }
}
