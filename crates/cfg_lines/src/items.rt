//! Whether a script has one item of what was asked, and nothing else.
ghost use Rattle.std.specs.Prelude.{◌≡◌};
ghost use Rattle.cfg_script.specs.Script.{plain, plain_profiles};
ghost use Rattle.cfg_lines.specs.Items.{none, has_counts as has_counts_of, has_reply_counts as has_reply_counts_of, one_reply as one_reply_to, one_item as one_item_of, is_listed as is_listed_in, has_one_item as has_one_item_of, has_no_sections as has_no_sections_in, sets_nothing as sets_nothing_in, configures_nothing as configures_nothing_in, answers as answers_to};
ghost use Rattle.cfg_world.specs.Script.{is_unwritable as is_unwritable_in};

use cfg_script::{Script, ScriptProfiles, ServiceConfig};
use cfg_types::{Request, Text};
use cfg_world::{DeviceLists, Question};

/// How many items each list of the devices has. The fields are those of `DeviceLists`, a number for each list.
pub(crate) struct Counts {
    files: usize,
    unwritable: usize,
    clock: usize,
    jitter: usize,
    commands: usize,
    lookups: usize,
    http: usize,
    imds_token: usize,
    imds_get: usize,
    assume_role: usize,
    web_identity: usize,
    role_credentials: usize,
    create_token: usize,
    sign_in: usize,
}

impl Drop for Counts {
    fn drop(self) {
        let Counts {
            files: _,
            unwritable: _,
            clock: _,
            jitter: _,
            commands: _,
            lookups: _,
            http: _,
            imds_token: _,
            imds_get: _,
            assume_role: _,
            web_identity: _,
            role_credentials: _,
            create_token: _,
            sign_in: _,
        } = self;
    }
}

fn no_items() -> Counts
    ensures { result ≡ none }
{
    Counts {
        files: 0,
        unwritable: 0,
        clock: 0,
        jitter: 0,
        commands: 0,
        lookups: 0,
        http: 0,
        imds_token: 0,
        imds_get: 0,
        assume_role: 0,
        web_identity: 0,
        role_credentials: 0,
        create_token: 0,
        sign_in: 0,
    }
}

#[tactic(auto, unfolding(crate::specs::Items::has_reply_counts))]
fn has_reply_counts(lists: &DeviceLists, counts: &Counts) -> bool
    ensures { result ≡ has_reply_counts_of counts.now lists.now }
{
    lists.http.as_slice().len() == counts.http
        && lists.imds_token.as_slice().len() == counts.imds_token
        && lists.imds_get.as_slice().len() == counts.imds_get
        && lists.assume_role.as_slice().len() == counts.assume_role
        && lists.web_identity.as_slice().len() == counts.web_identity
        && lists.role_credentials.as_slice().len() == counts.role_credentials
        && lists.create_token.as_slice().len() == counts.create_token
        && lists.sign_in.as_slice().len() == counts.sign_in
}

#[tactic(auto, unfolding(crate::specs::Items::has_counts))]
fn has_counts(lists: &DeviceLists, counts: &Counts) -> bool
    ensures { result ≡ has_counts_of counts.now lists.now }
{
    lists.files.as_slice().len() == counts.files
        && lists.unwritable.as_slice().len() == counts.unwritable
        && lists.clock.as_slice().len() == counts.clock
        && lists.jitter.as_slice().len() == counts.jitter
        && lists.commands.as_slice().len() == counts.commands
        && lists.lookups.as_slice().len() == counts.lookups
        && has_reply_counts(lists, counts)
}

// One reply to this request.
fn one_reply(request: &Request) -> Counts
    ensures { result ≡ one_reply_to request.now }
{
    let mut counts = no_items();
    match request {
        Request::Http(_) => counts.http = 1,
        Request::MetadataToken(_) => counts.imds_token = 1,
        Request::MetadataGet(_) => counts.imds_get = 1,
        Request::AssumeRole(_) => counts.assume_role = 1,
        Request::AssumeRoleWithWebIdentity(_) => counts.web_identity = 1,
        Request::GetRoleCredentials(_) => counts.role_credentials = 1,
        Request::CreateToken(_) => counts.create_token = 1,
        Request::CreateOAuth2Token(_) => counts.sign_in = 1,
    }
    counts
}

// One item of what is asked.
fn one_item(question: &Question) -> Counts
    ensures { result ≡ one_item_of question.now }
{
    let mut counts = no_items();
    match question {
        Question::Now => counts.clock = 1,
        Question::Jitter => counts.jitter = 1,
        Question::Read { .. } => counts.files = 1,
        Question::Write { .. } => counts.unwritable = 1,
        Question::Run { .. } => counts.commands = 1,
        Question::LookUp { .. } => counts.lookups = 1,
        Question::Send(request) => return one_reply(request.get()),
    }
    counts
}

fn is_listed(lists: &DeviceLists, path: &Text) -> bool
    ensures { result ≡ is_listed_in lists.now path.now }
{
    lists
        .files
        .as_slice()
        .iter()
        .any(|file| file.0.is(path.as_str()))
}

fn is_unwritable(lists: &DeviceLists, path: &Text) -> bool
    ensures { result ≡ is_unwritable_in lists.now path.now }
{
    lists
        .unwritable
        .as_slice()
        .iter()
        .any(|named| named.is(path.as_str()))
}

// That a file was written is no item.
#[tactic(auto, unfolding(crate::specs::Items::has_one_item))]
fn has_one_item(question: &Question, lists: &DeviceLists) -> bool
    ensures { result ≡ has_one_item_of question.now lists.now }
{
    let has_one = has_counts(lists, &one_item(question));
    match question {
        Question::Read { path } => has_one && is_listed(lists, path),
        Question::Write { path, .. } => {
            has_counts(lists, &no_items()) || (has_one && is_unwritable(lists, path))
        }
        _ => has_one,
    }
}

fn has_no_sections(profiles: &ScriptProfiles) -> bool
    ensures { result ≡ has_no_sections_in (plain_profiles profiles.now) }
{
    match profiles {
        ScriptProfiles::Sections { profiles, sessions } => {
            profiles.is_empty() && sessions.is_empty()
        }
        ScriptProfiles::Refused(_) => false,
    }
}

fn sets_nothing(service: ServiceConfig) -> bool
    ensures { result ≡ sets_nothing_in service }
{
    service.use_fips.is_none()
        && service.use_dual_stack.is_none()
        && service.max_attempts.is_none()
        && service.timeouts.is_none()
}

#[tactic(auto, unfolding(crate::specs::Items::configures_nothing))]
fn configures_nothing(script: &Script) -> bool
    ensures { result ≡ configures_nothing_in (plain script.now) }
{
    script.variables.is_empty()
        && has_no_sections(&script.profiles)
        && script.selected.is_none()
        && script.region.is_none()
        && script.sleep
        && sets_nothing(script.service)
        && script.calls == 1
}

/// Whether the script answers this question, and says nothing else.
pub(crate) fn answers(question: &Question, script: &Script) -> bool
    ensures { result ≡ answers_to question.now (plain script.now) }
{
    configures_nothing(script) && has_one_item(question, &script.devices)
}
