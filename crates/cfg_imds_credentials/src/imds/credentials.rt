//! The provider of metadata credentials.
ghost use Rattle.std.specs.Prelude.{◌≡◌, IfOk, true, false};
ghost use Rattle.cfg_imds.specs.Clients.{client_rules};
ghost use Rattle.cfg_imds.specs.Setups.{asked_client};
ghost use Rattle.cfg_kept.specs.Holds.{HoldsFollows, HoldsBreaks};
ghost use Rattle.cfg_kept.specs.KeptStates.{states_of};
ghost use Rattle.cfg_kept.specs.Kinds.{place_states};
ghost use Rattle.cfg_types.specs.Classes.{is_memory};
ghost use Rattle.cfg_imds_credentials.specs.Settings.{setting};
ghost use Rattle.cfg_imds_credentials.specs.Metadata.{metadata};
ghost use Rattle.cfg_imds_credentials.specs.Provides.{ProvidesMetadata};

use crate::follow::follow_metadata;
pub use crate::imds::builder::Builder;
use cfg_imds::Client;
use cfg_imds::steps::{AskedClient, client_at};
use cfg_kept::{Keeper, Kept, Place};
use cfg_types::{Credentials, CredentialsError, OutOfMemory, Text, TryCopy};
use cfg_world::{Asking, Devices, Stop, World};
use std::alloc::Global;

/// Credentials of the role of a machine of Amazon EC2, as its instance metadata service gives them. It
/// asks by session tokens alone (IMDSv2). What it keeps between its calls is the keeper's.
#[derive(Drop)]
pub struct ImdsCredentialsProvider {
    alloc: Global,
    disabled: bool,
    client: AskedClient,
    role: Option<Text>,
    place: Place,
}

impl ImdsCredentialsProvider {
    ghost use Rattle.cfg_imds_credentials.specs.Setups.{setup_of, setting_of, setting_by, default_metadata};

    pub(crate) fn of(
        alloc: Global,
        disabled: bool,
        client: AskedClient,
        role: Option<Text>,
        place: Place,
    ) -> ImdsCredentialsProvider
        ensures { setting_of repeated result ≡ setting disabled (asked_client repeated client) role place }
    {
        ImdsCredentialsProvider {
            alloc,
            disabled,
            client,
            role,
            place,
        }
    }

    /// A builder with no variables, no profiles and no client, of the role that the service lists, for the
    /// default chain. `OutOfMemory` where memory runs out.
    pub fn builder(alloc: Global) -> Result<Builder, OutOfMemory>
        ensures { IfOk result (λ b. setup_of repeated b ≡ default_metadata) }
    {
        Builder::new(alloc)
    }

    /// The body of [`Self::provide_credentials`], over anything that can be asked. Where a question is
    /// left open it stops there. Where memory runs out it stops with `OutOfMemory`. What is kept is then,
    /// and at an open question, as the last finished holding left it.
    #[tactic(auto, using(cfg_kept::proofs::HoldingSteps::holding_steps))]
    pub fn follow<P: Keeper, A: Asking>(
        &self,
        keeper: &mut P,
        asking: &mut A,
    ) -> Result<Result<Credentials, CredentialsError>, Stop>
        ensures follows { HoldsFollows ⟦<A as Asking>⟧ (metadata (setting_of repeated self.now))
            asking.old (P.holdings keeper.old) asking.new (P.holdings keeper.new) result }
        ensures key { P.key_held keeper.new ≡ P.key_held keeper.old }
    {
        match &self.client {
            AskedClient::Given(client) => self.follow_by(client, keeper, asking),
            AskedClient::Own(endpoint) => {
                let endpoint = endpoint.copy(self.alloc)?;
                let client = client_at(self.alloc, endpoint);
                self.follow_by(&client, keeper, asking)
            }
        }
    }

    // The same, by this client.
    fn follow_by<P: Keeper, A: Asking>(
        &self,
        client: &Client,
        keeper: &mut P,
        asking: &mut A,
    ) -> Result<Result<Credentials, CredentialsError>, Stop>
        ensures follows { HoldsFollows ⟦<A as Asking>⟧ (metadata (setting_by (client_rules repeated client.now) self.now))
            asking.old (P.holdings keeper.old) asking.new (P.holdings keeper.new) result }
        ensures key { P.key_held keeper.new ≡ P.key_held keeper.old }
    {
        follow_metadata(
            self.disabled,
            client,
            &self.role,
            self.place,
            keeper,
            asking,
        )
    }

    /// The credentials of the machine's role, by the provider's name `IMDSv2`, without an account. Those
    /// that were retrieved by this call have the feature `CredentialsImds`, and kept ones have none.
    ///
    /// Where metadata is switched off by `AWS_EC2_METADATA_DISABLED` nothing is asked. Else the path
    /// `/latest/meta-data/iam/security-credentials/` gives the role's name, unless one is set; the path
    /// behind it gives the role's document; and the clock is read. Credentials that have ended by then
    /// are good for 600 seconds more and a jitter of at most 300, which is asked for then alone. Each
    /// get settles a session token on the one that is kept for the place. What is retrieved is kept for
    /// the place, and after a refusal it is the answer. See [IAM roles for Amazon
    /// EC2](https://docs.aws.amazon.com/AWSEC2/latest/UserGuide/iam-roles-for-amazon-ec2.html).
    ///
    /// # Errors
    ///
    /// Each of them but the last comes only where nothing retrieved is kept for the place.
    ///
    /// - `CredentialsNotLoaded(MetadataDisabled)`: metadata is switched off.
    /// - `CredentialsNotLoaded(MetadataNoRole)`: the listing answers 404.
    /// - `CredentialsNotLoaded(MetadataUnreachable)`: the listing's token request could not be sent.
    /// - `ProviderError(Metadata)`: the listing or the document was not got for another reason. It has
    ///   the client's error, which is `Unexpected(Path)` where the role's name makes no path.
    /// - `InvalidConfiguration(MetadataRole)`: the document is an error of the code
    ///   `AssumeRoleUnauthorizedAccess`.
    /// - `ProviderError(ErrorDocument)`: it is an error of another code.
    /// - `Unhandled(NoDocument)`: it is no document of credentials.
    /// - `OutOfMemory` where memory runs out. The journal then has gained the beginning of such a part,
    ///   and each kept value is as the last finished holding left it.
    pub fn provide_credentials<P: Keeper, D: Devices>(
        &self,
        keeper: &mut P,
        world: &mut World<D>,
    ) -> Result<Credentials, CredentialsError>
        ensures provides { is_memory result ≡ false → ProvidesMetadata ⟦<World<D> as Asking>⟧ (setting_of repeated self.now)
            world.old (P.holdings keeper.old) world.new (P.holdings keeper.new) result }
        ensures stays { is_memory result ≡ true → HoldsBreaks ⟦<World<D> as Asking>⟧ (metadata (setting_of repeated self.now))
            world.old (P.holdings keeper.old) world.new (P.holdings keeper.new) }
        ensures key { P.key_held keeper.new ≡ P.key_held keeper.old }
    {
        match self.follow(keeper, world) {
            Ok(outcome) => outcome,
            Err(_) => Err(CredentialsError::OutOfMemory),
        }
    }

    /// What a caller may use where a call was interrupted: the credentials that were last retrieved for
    /// the provider's place, if any were. Nothing is asked, and what is kept stays. `OutOfMemory` where
    /// memory runs out.
    pub fn fallback_on_interrupt(&self, kept: &Kept) -> Result<Option<Credentials>, OutOfMemory>
        ensures { IfOk result (λ c. c ≡ (place_states (states_of kept.now) (setting_of repeated self.now).place).retrieved) }
    {
        match kept.retrieved_for(self.place) {
            None => Ok(None),
            Some(retrieved) => Ok(Some(retrieved.credentials().copy(self.alloc)?)),
        }
    }
}
