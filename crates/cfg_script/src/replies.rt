//! Replies to requests, commands and look-ups.
ghost use Rattle.std.specs.Prelude.{◌≡◌, Option, Result};
ghost use Rattle.serde_json.specs.Data.{Data};
ghost use Rattle.serde_json.specs.View.{view};
ghost use Rattle.cfg_script.specs.declared.fault.Fault.{Fault};
ghost use Rattle.cfg_script.specs.Replies.{fail_kind, failed_send, failed, refusal_kind, refusal_kind_of, refusal_or, answer};
ghost use Rattle.cfg_script.specs.Gives.{Reads};
ghost use Rattle.cfg_types.specs.declared.reply.Reply.{Reply};
ghost use Rattle.cfg_script.specs.Addresses.{address_from, address_of};

use crate::fault::{FormError, Wanted, wanting};
use crate::form::{Form, Items, read_list, read_pair, read_triple};
use crate::json::text_or_other;
use crate::member_names::{
    Access, Arn, Expires, ExpiresIn, ExpiresMs, Id, Message, Refresh, Refused, Secret, Token,
};
use crate::members::{Optional, Required};
use crate::moments::Moment;
use crate::object::read_object;
use crate::scalars::{
    CommandStatus, Content, HeaderNameText, HttpStatus, SignedInteger, ValueText,
};
use cfg_types::{
    Address, FailKind, Finished, Header, HttpReply, Refusal, RefusalKind, Reply, RoleCredentials,
    RoleReply, Seq, SignInReply, SignInToken, StsCredentials, StsReply, TokenReply,
};
use serde_json::Value;
use std::alloc::Global;
use std::marker::PhantomData;

fn fail_kind_named(name: &str) -> Option<FailKind>
    ensures { result ≡ fail_kind name.now }
{
    match name {
        "dispatch" => Some(FailKind::Dispatch),
        "timeout" => Some(FailKind::Timeout),
        "broken" => Some(FailKind::Broken),
        _ => None,
    }
}

fn send_failed(name: &str) -> Option<Result<Reply, FailKind>>
    ensures { result ≡ failed_send name.now }
{
    Some(Err(fail_kind_named(name)?))
}

fn failure<T: Drop>(name: &str) -> Option<Result<T, FailKind>>
    ensures { result ≡ failed name.now }
{
    if name == "fail" {
        Some(Err(FailKind::Io))
    } else {
        None
    }
}

/// What a command left behind, or that it failed.
pub(crate) struct Command;

impl Form for Command {
    ghost use Rattle.std.specs.Prelude.{Result};
    ghost use Rattle.cfg_types.specs.declared.command.Finished.{Finished};
    ghost use Rattle.cfg_types.specs.declared.reply.FailKind.{FailKind};
    ghost use Rattle.cfg_script.specs.Replies.{command};

    type Read = Result<Finished, FailKind>;

    ghost Plain = { Result Finished FailKind };

    ghost seen = { λ r. r };

    ghost form = { command };

    fn read(alloc: Global, value: Value) -> Result<Result<Finished, FailKind>, FormError> {
        let other = match text_or_other(value) {
            Ok(name) => return wanting(alloc, Wanted::Command, failure(name.as_str())),
            Err(other) => other,
        };
        let (status, output, errors) = read_triple::<CommandStatus, Content, Content>(
            alloc,
            Wanted::Command,
            other,
        )?;
        Ok(Ok(Finished {
            status,
            output,
            errors,
        }))
    }
}

fn address_named(text: &str) -> Option<Address>
    ensures { result ≡ address_from text.now }
{
    Address::parse(text)
}

#[tactic(auto, unfolding(crate::specs::Addresses::address_of))]
fn read_address(value: &Value) -> Option<Address>
    ensures { result ≡ address_of (view value.now) }
{
    address_named(value.as_str()?)
}

/// An address by its text.
pub(crate) struct AddressText;

impl Form for AddressText {
    ghost use Rattle.cfg_base.specs.declared.address.Address.{Address};
    ghost use Rattle.cfg_script.specs.Addresses.{address};

    type Read = Address;

    ghost Plain = { Address };

    ghost seen = { λ a. a };

    ghost form = { address };

    fn read(alloc: Global, value: Value) -> Result<Address, FormError> {
        wanting(alloc, Wanted::Address, read_address(&value))
    }
}

/// The addresses of a host, or that the look-up failed.
pub(crate) struct LookUp;

impl Form for LookUp {
    ghost use Rattle.std.specs.Prelude.{Result, List};
    ghost use Rattle.cfg_base.specs.declared.address.Address.{Address};
    ghost use Rattle.cfg_types.specs.declared.reply.FailKind.{FailKind};
    ghost use Rattle.cfg_script.specs.Replies.{look_up};

    type Read = Result<Seq<Address>, FailKind>;

    ghost Plain = { Result (List Address) FailKind };

    ghost seen = { λ r. r };

    ghost form = { look_up };

    fn read(alloc: Global, value: Value) -> Result<Result<Seq<Address>, FailKind>, FormError> {
        let other = match text_or_other(value) {
            Ok(name) => return wanting(alloc, Wanted::LookUp, failure(name.as_str())),
            Err(other) => other,
        };
        let addresses = read_list::<AddressText>(alloc, Wanted::LookUp, other)?;
        Ok(Ok(Seq::of(addresses)))
    }
}

/// A header of a reply.
pub(crate) struct HeaderPair;

impl Form for HeaderPair {
    ghost use Rattle.cfg_types.specs.declared.reply.http.Header.{Header};
    ghost use Rattle.cfg_script.specs.Replies.{header};

    type Read = Header;

    ghost Plain = { Header };

    ghost seen = { λ h. h };

    ghost form = { header };

    fn read(alloc: Global, value: Value) -> Result<Header, FormError> {
        let (name, value) = read_pair::<HeaderNameText, ValueText>(alloc, Wanted::Header, value)?;
        Ok(Header { name, value })
    }
}

/// A reply of HTTP, or a send that failed.
pub(crate) struct HttpSent;

impl Form for HttpSent {
    ghost use Rattle.std.specs.Prelude.{Result};
    ghost use Rattle.cfg_types.specs.declared.reply.Reply.{Reply};
    ghost use Rattle.cfg_types.specs.declared.reply.FailKind.{FailKind};
    ghost use Rattle.cfg_script.specs.Replies.{http_reply};

    type Read = Result<Reply, FailKind>;

    ghost Plain = { Result Reply FailKind };

    ghost seen = { λ r. r };

    ghost form = { http_reply };

    fn read(alloc: Global, value: Value) -> Result<Result<Reply, FailKind>, FormError> {
        let other = match text_or_other(value) {
            Ok(name) => return wanting(alloc, Wanted::HttpReply, send_failed(name.as_str())),
            Err(other) => other,
        };
        let (status, headers, body) = read_triple::<HttpStatus, Items<HeaderPair>, Content>(
            alloc,
            Wanted::HttpReply,
            other,
        )?;
        let headers = Seq::of(headers);
        Ok(Ok(Reply::Http(HttpReply {
            status,
            headers,
            body,
        })))
    }
}

fn refusal_kind_named(name: &str) -> Option<RefusalKind>
    ensures { result ≡ refusal_kind name.now }
{
    match name {
        "RegionDisabled" => Some(RefusalKind::RegionDisabled),
        "MalformedPolicyDocument" => Some(RefusalKind::MalformedPolicyDocument),
        "InsufficientPermissions" => Some(RefusalKind::InsufficientPermissions),
        "TokenExpired" => Some(RefusalKind::TokenExpired),
        "UserCredentialsChanged" => Some(RefusalKind::UserCredentialsChanged),
        "Other" => Some(RefusalKind::Other),
        _ => None,
    }
}

#[tactic(auto, unfolding(crate::specs::Replies::refusal_kind_of))]
fn read_refusal_kind(value: &Value) -> Option<RefusalKind>
    ensures { result ≡ refusal_kind_of (view value.now) }
{
    refusal_kind_named(value.as_str()?)
}

/// What a call was refused for.
pub(crate) struct RefusalKindName;

impl Form for RefusalKindName {
    ghost use Rattle.cfg_types.specs.declared.reply.RefusalKind.{RefusalKind};
    ghost use Rattle.cfg_script.specs.Replies.{kind_name};

    type Read = RefusalKind;

    ghost Plain = { RefusalKind };

    ghost seen = { λ k. k };

    ghost form = { kind_name };

    fn read(alloc: Global, value: Value) -> Result<RefusalKind, FormError> {
        wanting(alloc, Wanted::RefusalKind, read_refusal_kind(&value))
    }
}

type OfRefusal = (
    Required<Refused, RefusalKindName>,
    (Required<Message, ValueText>, ()),
);

/// A service's refusal.
pub(crate) struct ServiceRefusal;

impl Form for ServiceRefusal {
    ghost use Rattle.cfg_types.specs.declared.reply.Reply.{Reply};
    ghost use Rattle.cfg_script.specs.Replies.{refusal};

    type Read = Reply;

    ghost Plain = { Reply };

    ghost seen = { λ r. r };

    ghost form = { refusal };

    fn read(alloc: Global, value: Value) -> Result<Reply, FormError> {
        let (kind, (message, ())) = read_object::<OfRefusal>(alloc, Wanted::Reply, value)?;
        Ok(Reply::Refused(Refusal { kind, message }))
    }
}

/// What a service grants.
pub(crate) trait Service {
    ghost null_reply: { Option Reply };

    ghost grant: { Data → Result Reply Fault };

    /// The reply that null stands for, where it stands for one.
    fn null_reply() -> Option<Reply>
        ensures { result ≡ null_reply };

    fn read(alloc: Global, value: Value) -> Result<Reply, FormError>
        ensures { Reads (λ r. r) result (grant (view value)) };
}

type OfSts = (
    Required<Id, ValueText>,
    (
        Required<Secret, ValueText>,
        (
            Required<Token, ValueText>,
            (Required<Expires, Moment>, (Optional<Arn, ValueText>, ())),
        ),
    ),
);

/// The Security Token Service.
pub(crate) struct Sts;

impl Service for Sts {
    ghost use Rattle.std.specs.Prelude.{Some};
    ghost use Rattle.cfg_script.specs.Replies.{no_sts, sts_grant};

    ghost null_reply = { Some no_sts };

    ghost grant = { sts_grant };

    fn null_reply() -> Option<Reply> {
        Some(Reply::Sts(StsReply {
            credentials: None,
            arn: None,
        }))
    }

    fn read(alloc: Global, value: Value) -> Result<Reply, FormError> {
        let (access_key_id, (secret_access_key, (session_token, (expiration, (arn, ()))))) =
            read_object::<OfSts>(alloc, Wanted::Reply, value)?;
        Ok(Reply::Sts(StsReply {
            credentials: Some(StsCredentials {
                access_key_id,
                secret_access_key,
                session_token,
                expiration,
            }),
            arn,
        }))
    }
}

type OfRole = (
    Optional<Id, ValueText>,
    (
        Optional<Secret, ValueText>,
        (
            Optional<Token, ValueText>,
            (Required<ExpiresMs, SignedInteger>, ()),
        ),
    ),
);

/// `GetRoleCredentials`.
pub(crate) struct Role;

impl Service for Role {
    ghost use Rattle.std.specs.Prelude.{Some};
    ghost use Rattle.cfg_script.specs.Replies.{no_role, role_grant};

    ghost null_reply = { Some no_role };

    ghost grant = { role_grant };

    fn null_reply() -> Option<Reply> {
        Some(Reply::Role(RoleReply { credentials: None }))
    }

    fn read(alloc: Global, value: Value) -> Result<Reply, FormError> {
        let (access_key_id, (secret_access_key, (session_token, (expiration_ms, ())))) =
            read_object::<OfRole>(alloc, Wanted::Reply, value)?;
        Ok(Reply::Role(RoleReply {
            credentials: Some(RoleCredentials {
                access_key_id,
                secret_access_key,
                session_token,
                expiration_ms,
            }),
        }))
    }
}

type OfToken = (
    Optional<Access, ValueText>,
    (
        Optional<Refresh, ValueText>,
        (Required<ExpiresIn, SignedInteger>, ()),
    ),
);

/// `CreateToken`.
pub(crate) struct Tokens;

impl Service for Tokens {
    ghost use Rattle.std.specs.Prelude.{None};
    ghost use Rattle.cfg_script.specs.Replies.{token_grant};

    ghost null_reply = { None };

    ghost grant = { token_grant };

    fn null_reply() -> Option<Reply> {
        None
    }

    fn read(alloc: Global, value: Value) -> Result<Reply, FormError> {
        let (access_token, (refresh_token, (expires_in, ()))) = read_object::<OfToken>(
            alloc,
            Wanted::Reply,
            value,
        )?;
        Ok(Reply::Token(TokenReply {
            access_token,
            refresh_token,
            expires_in,
        }))
    }
}

type OfSignIn = (
    Required<Id, ValueText>,
    (
        Required<Secret, ValueText>,
        (
            Required<Token, ValueText>,
            (
                Required<Refresh, ValueText>,
                (Required<ExpiresIn, SignedInteger>, ()),
            ),
        ),
    ),
);

/// `CreateOAuth2Token`.
pub(crate) struct SignsIn;

impl Service for SignsIn {
    ghost use Rattle.std.specs.Prelude.{Some};
    ghost use Rattle.cfg_script.specs.Replies.{no_sign_in, sign_in_grant};

    ghost null_reply = { Some no_sign_in };

    ghost grant = { sign_in_grant };

    fn null_reply() -> Option<Reply> {
        Some(Reply::SignIn(SignInReply { token: None }))
    }

    fn read(alloc: Global, value: Value) -> Result<Reply, FormError> {
        let (
            access_key_id,
            (secret_access_key, (session_token, (refresh_token, (expires_in, ())))),
        ) = read_object::<OfSignIn>(alloc, Wanted::Reply, value)?;
        Ok(Reply::SignIn(SignInReply {
            token: Some(SignInToken {
                access_key_id,
                secret_access_key,
                session_token,
                refresh_token,
                expires_in,
            }),
        }))
    }
}

fn read_refusal_or<S: Service>(alloc: Global, value: Value) -> Result<Reply, FormError>
    ensures { Reads (λ r. r) result (refusal_or S.grant (view value)) }
{
    if value.get("refused").is_some() {
        ServiceRefusal::read(alloc, value)
    } else {
        S::read(alloc, value)
    }
}

fn read_answer<S: Service>(alloc: Global, value: Value) -> Result<Reply, FormError>
    ensures { Reads (λ r. r) result (answer S.null_reply S.grant (view value)) }
{
    if value.is_null() {
        if let Some(reply) = S::null_reply() {
            return Ok(reply);
        }
    }
    read_refusal_or::<S>(alloc, value)
}

/// A send that failed, a refusal, what a service grants, or null where it stands for a reply.
pub(crate) struct Sent<S> {
    by: PhantomData<S>,
}

impl<S: Service> Form for Sent<S> {
    ghost use Rattle.std.specs.Prelude.{Result};
    ghost use Rattle.cfg_types.specs.declared.reply.Reply.{Reply};
    ghost use Rattle.cfg_types.specs.declared.reply.FailKind.{FailKind};
    ghost use Rattle.cfg_script.specs.Replies.{reply_of};

    type Read = Result<Reply, FailKind>;

    ghost Plain = { Result Reply FailKind };

    ghost seen = { λ r. r };

    ghost form = { reply_of S.null_reply S.grant };

    fn read(alloc: Global, value: Value) -> Result<Result<Reply, FailKind>, FormError> {
        let other = match text_or_other(value) {
            Ok(name) => return wanting(alloc, Wanted::Reply, send_failed(name.as_str())),
            Err(other) => other,
        };
        let reply = read_answer::<S>(alloc, other)?;
        Ok(Ok(reply))
    }
}
