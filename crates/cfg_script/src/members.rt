//! The members of an object, each a name and a form.
ghost use Rattle.std.specs.Prelude.{◌≡◌, ℕ, List, option_map};
ghost use Rattle.serde_json.specs.View.{view};
ghost use Rattle.cfg_script.specs.Gives.{Reads};
ghost use Rattle.cfg_script.specs.Objects.{MemberForm};

use crate::fault::{FormError, Wanted, here};
use crate::form::{Form, read_list};
use serde_json::Value;
use std::alloc::Global;
use std::marker::PhantomData;

/// The name of a member.
pub(crate) trait Name {
    ghost name: { List ℕ };

    fn name() -> &'static str
        ensures { result.now ≡ name };
}

/// A member of an object.
pub(crate) trait Member {
    type Read: Drop;

    ghost Plain: { Type 0 };

    ghost seen: { Self.Read → Plain };

    ghost member_form: { MemberForm Plain };

    fn name() -> &'static str
        ensures { result.now ≡ member_form.name };

    /// What the member says, there or missing.
    fn read(alloc: Global, member: Option<Value>) -> Result<Self::Read, FormError>
        ensures { Reads seen result (member_form.read (option_map view member)) };
}

/// A list, empty where its member is missing.
pub(crate) struct ListOf<N, F> {
    of: PhantomData<(N, F)>,
}

impl<N: Name, F: Form> Member for ListOf<N, F> {
    ghost use Rattle.std.specs.Prelude.{List, map};
    ghost use Rattle.cfg_script.specs.Objects.{list_member};

    type Read = Vec<F::Read>;

    ghost Plain = { List F.Plain };

    ghost seen = { λ v. map F.seen v.items };

    ghost member_form = { list_member N.name F.form };

    fn name() -> &'static str {
        N::name()
    }

    fn read(alloc: Global, member: Option<Value>) -> Result<Vec<F::Read>, FormError> {
        match member {
            Some(value) => read_list::<F>(alloc, Wanted::List, value),
            None => Ok(Vec::new(alloc)),
        }
    }
}

/// A member that may be missing.
pub(crate) struct Optional<N, F> {
    of: PhantomData<(N, F)>,
}

impl<N: Name, F: Form> Member for Optional<N, F> {
    ghost use Rattle.std.specs.Prelude.{Option, option_map};
    ghost use Rattle.cfg_script.specs.Objects.{optional_member};

    type Read = Option<F::Read>;

    ghost Plain = { Option F.Plain };

    ghost seen = { option_map F.seen };

    ghost member_form = { optional_member N.name F.form };

    fn name() -> &'static str {
        N::name()
    }

    fn read(alloc: Global, member: Option<Value>) -> Result<Option<F::Read>, FormError> {
        match member {
            Some(value) => Ok(Some(F::read(alloc, value)?)),
            None => Ok(None),
        }
    }
}

/// A member that has to be there.
pub(crate) struct Required<N, F> {
    of: PhantomData<(N, F)>,
}

impl<N: Name, F: Form> Member for Required<N, F> {
    ghost use Rattle.cfg_script.specs.Objects.{required_member};

    type Read = F::Read;

    ghost Plain = { F.Plain };

    ghost seen = { F.seen };

    ghost member_form = { required_member N.name F.form };

    fn name() -> &'static str {
        N::name()
    }

    fn read(alloc: Global, member: Option<Value>) -> Result<F::Read, FormError> {
        match member {
            Some(value) => F::read(alloc, value),
            None => Err(FormError::Fault(here(alloc, Wanted::Present))),
        }
    }
}
