//! Where the instance metadata service is asked.
ghost use Rattle.std.specs.Prelude.{◌≡◌, Ok as ok, Err as err, option_map, IfOk, IfErr, is_some, None as none, ◌&&◌};
ghost use Rattle.http_uri.specs.Uri.{uri_scheme, uri_authority};
ghost use Rattle.cfg_imds.specs.Endpoints.{mode_endpoint as mode_endpoint_of, key_in, setting as setting_of, mode_by, by_mode as by_mode_of, or_mode as or_mode_of, endpoint_text, IsEndpointAt, IsEndpointBy, IsEndpoint};
ghost use Rattle.cfg_profile.specs.Selected.{selected_name as selected_name_of};
ghost use Rattle.cfg_imds.specs.Hosts.{IsHosted};

use cfg_profile::{ProfileSource, ProviderConfig, selected_name};
use cfg_types::imds::EndpointMode;
use cfg_types::{OutOfMemory, Text, TryCopy};
use http_uri::{Uri, UriError};
use std::alloc::Global;

/// Where the service is asked, or why it cannot be asked.
pub enum Endpoint {
    /// At this text, which has a scheme and an authority.
    At(Text),
    /// This text is no URI with a scheme and an authority.
    NoUri(Text),
    /// This text names no mode.
    NoMode(Text),
}

impl Drop for Endpoint {
    fn drop(self) {
        match self {
            Endpoint::At(_) => {}
            Endpoint::NoUri(_) => {}
            Endpoint::NoMode(_) => {}
        }
    }
}

impl TryCopy for Endpoint {
    fn copy(&self, alloc: Global) -> Result<Endpoint, OutOfMemory> {
        Ok(match self {
            Endpoint::At(text) => Endpoint::At(text.copy(alloc)?),
            Endpoint::NoUri(text) => Endpoint::NoUri(text.copy(alloc)?),
            Endpoint::NoMode(text) => Endpoint::NoMode(text.copy(alloc)?),
        })
    }
}

// The value of a key of the selected profile, where both are there.
fn selected_key<'a>(config: &'a ProviderConfig, key: &str) -> Option<&'a str>
    ensures { option_map (λ t. t.now) result ≡ key_in config.now.profiles (selected_name_of config.now) key.now }
{
    match config.profiles() {
        ProfileSource::Refused(_) => None,
        ProfileSource::Sections(set) => match set.get_profile(selected_name(config)) {
            Some(section) => section.get(key),
            None => None,
        },
    }
}

// What a variable is set to, else what a key of the selected profile is.
#[tactic(auto, unfolding(crate::specs::Endpoints::setting))]
fn setting<'a>(config: &'a ProviderConfig, variable: &str, key: &str) -> Option<&'a str>
    ensures { option_map (λ t. t.now) result ≡ setting_of config.now variable.now key.now }
{
    match config.env().readable(variable) {
        Some(text) => Some(text),
        None => selected_key(config, key),
    }
}

fn mode_endpoint(mode: EndpointMode) -> &'static str
    ensures { result.now ≡ mode_endpoint_of mode }
{
    match mode {
        EndpointMode::IpV4 => "http://169.254.169.254",
        EndpointMode::IpV6 => "http://[fd00:ec2::254]",
    }
}

fn is_hosted(uri: &Uri) -> bool
    ensures { result ≡ (is_some (uri_scheme uri.now) && is_some (uri_authority uri.now)) }
{
    uri.scheme().is_some() && uri.authority().is_some()
}

// Whether a text is a URI with a scheme and an authority.
#[tactic(auto, using(crate::proofs::Hosting::hosting_steps))]
fn has_host(alloc: Global, text: &str) -> Result<bool, OutOfMemory>
    ensures { IfOk result (IsHosted text.now) }
{
    match Uri::from_str(alloc, text) {
        Ok(uri) => Ok(is_hosted(&uri)),
        Err(UriError::Invalid(_)) => Ok(false),
        Err(UriError::OutOfMemory) => Err(OutOfMemory),
    }
}

// What a text is as an endpoint.
#[tactic(auto, using(crate::proofs::Hosting::hosting_steps))]
fn endpoint_at(alloc: Global, text: &str) -> Result<Endpoint, OutOfMemory>
    ensures { IfOk result (IsEndpointAt text.now) }
{
    let is_usable = has_host(alloc, text)?;
    let text = Text::of(alloc, text)?;
    if is_usable {
        Ok(Endpoint::At(text))
    } else {
        Ok(Endpoint::NoUri(text))
    }
}

#[tactic(auto, unfolding(crate::specs::Endpoints::mode_by))]
fn mode_said<'a>(said: Option<&'a str>) -> Result<&'a str, &'a str>
    ensures ok { IfOk result (λ t. mode_by (option_map (λ s. s.now) said.entry) ≡ ok t.now) }
    ensures err { IfErr result (λ t. mode_by (option_map (λ s. s.now) said.entry) ≡ err t.now) }
{
    let Some(text) = said else {
        return Ok(mode_endpoint(EndpointMode::IpV4));
    };
    match EndpointMode::named(text) {
        Some(mode) => Ok(mode_endpoint(mode)),
        None => Err(text),
    }
}

// The endpoint of the mode, or the text that names none.
#[tactic(auto, unfolding(crate::specs::Endpoints::by_mode))]
fn by_mode<'a>(config: &'a ProviderConfig, mode: Option<EndpointMode>) -> Result<&'a str, &'a str>
    ensures ok { IfOk result (λ t. by_mode_of config.now mode ≡ ok t.now) }
    ensures err { IfErr result (λ t. by_mode_of config.now mode ≡ err t.now) }
{
    match mode {
        Some(mode) => Ok(mode_endpoint(mode)),
        None => {
            let key = "ec2_metadata_service_endpoint_mode";
            let said = setting(config, "AWS_EC2_METADATA_SERVICE_ENDPOINT_MODE", key);
            let text = mode_said(said)?;
            Ok(text)
        }
    }
}

// The endpoint that is set, else that of the mode.
fn said_endpoint<'a>(
    config: &'a ProviderConfig,
    mode: Option<EndpointMode>,
) -> Result<&'a str, &'a str>
    ensures ok { IfOk result (λ t. endpoint_text config.now none mode ≡ ok t.now) }
    ensures err { IfErr result (λ t. endpoint_text config.now none mode ≡ err t.now) }
{
    let key = "ec2_metadata_service_endpoint";
    match setting(config, "AWS_EC2_METADATA_SERVICE_ENDPOINT", key) {
        Some(text) => Ok(text),
        None => {
            let text = by_mode(config, mode)?;
            Ok(text)
        }
    }
}

/// Where the service is asked: at the endpoint that was given, else at that of
/// `AWS_EC2_METADATA_SERVICE_ENDPOINT`, else at that of the key `ec2_metadata_service_endpoint` of the
/// selected profile, else at the mode's. The mode is the one that was given, else that of
/// `AWS_EC2_METADATA_SERVICE_ENDPOINT_MODE`, else that of the key `ec2_metadata_service_endpoint_mode`,
/// else IPv4. A variable that is not Unicode counts as one that is not set, an empty one as set. A text
/// that is no endpoint, or no mode where that is looked at, is answered as such and is no error here.
/// Nothing is asked. `OutOfMemory` where memory runs out.
pub fn endpoint_of(
    alloc: Global,
    config: &ProviderConfig,
    given: &Option<Text>,
    mode: Option<EndpointMode>,
) -> Result<Endpoint, OutOfMemory>
    ensures { IfOk result (IsEndpoint config.now given.now mode) }
{
    if let Some(given) = given {
        return endpoint_at(alloc, given.as_str());
    }
    match said_endpoint(config, mode) {
        Ok(text) => endpoint_at(alloc, text),
        Err(text) => {
            let text = Text::of(alloc, text)?;
            Ok(Endpoint::NoMode(text))
        }
    }
}
