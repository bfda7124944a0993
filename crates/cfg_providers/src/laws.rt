//! Laws, each on a call that carries it.
ghost use Rattle.std.specs.Prelude.{◌≡◌, ◌≢◌, ◌++◌, ◌∷◌, [], ℕ, List, map, Option, Some, None, is_some, Result, Err, option_and_then, if◌then◌else◌};
ghost use Rattle.std.specs.List.{last_or};
ghost use Rattle.std.specs.Result.{result_err};
ghost use Rattle.cfg_types.specs.Keys.{Keys};
ghost use Rattle.cfg_types.specs.declared.document.InvalidJsonCredentials.TheVariants as invalid;
ghost use Rattle.cfg_types.specs.declared.errors.CredentialsError.{CredentialsError as Refusal};
ghost use Rattle.cfg_json.specs.Documents.{Read, AnswersDocument, IsProcessTable};
ghost use Rattle.cfg_world.specs.Fits.{Pair};
ghost use Rattle.cfg_world.specs.Held.{Held};
ghost use Rattle.cfg_world.specs.Inquiry.{Reads};
ghost use Rattle.cfg_exchange.specs.SafeJournals.{AsksSafely};
ghost use Rattle.cfg_world.specs.Gains.{Gains};
ghost use Rattle.cfg_profile.specs.Configuration.{Configuration};
ghost use Rattle.cfg_profile.specs.Laws.{lowered};
ghost use Rattle.cfg_profile.specs.NamedSources.{is_named, is_custom};
ghost use Rattle.cfg_providers.specs.declared.web_identity_token.StaticConfiguration.{StaticConfiguration as Given};
ghost use Rattle.cfg_providers.specs.declared.web_identity_token.SessionPolicies.{SessionPolicies as Policies};
ghost use Rattle.cfg_providers.specs.declared.web_identity_token.WebIdentity.{WebIdentity as Identity};
ghost use Rattle.cfg_types.specs.Environment.{Variables};
ghost use Rattle.cfg_providers.specs.CustomSources.{Answer, NamedAnswer, last_named};
ghost use Rattle.cfg_providers.specs.EnvironmentKeys.{environment};
ghost use Rattle.cfg_types.specs.Classes.{is_not_loaded_answer};
ghost use Rattle.cfg_providers.specs.EnvironmentCauses.{environment_is_passed_over, unreadable_variable, why_environment, named_variable};
ghost use Rattle.cfg_providers.specs.ContainerSetups.{ContainerSetup, settings_in, ProvidesContainer, InterruptedContainer};
ghost use Rattle.cfg_providers.specs.ProcessDocuments.{process_document};
ghost use Rattle.cfg_providers.specs.Processes.{credential_process, why_process};
ghost use Rattle.cfg_providers.specs.WebIdentities.{assumes_by_web_identity, web_identity, why_entry, why_web_identity};

use cfg_world::Devices;

/// The last custom source of a name is meant, in any ASCII case of it, and the sources that are found
/// are those that a plan knows.
pub fn the_last_custom_source_is_meant()
    ensures any_case { (sources : List NamedAnswer) (name other : List ℕ) → lowered name ≡ lowered other → last_named name sources ≡ last_named other sources }
    ensures later { (sources : List NamedAnswer) (name source : List ℕ) (answer : Answer) →
        last_named name (sources ++ (source, answer) ∷ []) ≡ (if is_named name source then Some answer else last_named name sources) }
    ensures known { (sources : List NamedAnswer) (name : List ℕ) → is_some (last_named name sources) ≡ is_custom (map (λ s. s.0) sources) name }
{}

/// The environment fails by one variable: it is not loaded exactly where one is absent or blank that is
/// needed, and names one as not Unicode exactly where that one stops it.
pub fn the_environment_fails_by_one_variable()
    ensures cause { (env : Variables) → result_err (environment env) ≡ why_environment env }
    ensures not_loaded { (env : Variables) → is_not_loaded_answer (environment env) ≡ environment_is_passed_over env }
    ensures not_unicode { (env : Variables) → named_variable (environment env) ≡ unreadable_variable env }
{}

/// What the document of a process says is the one answer that its grammar and its table of fields
/// allow, but for running out of memory.
pub fn a_process_document_says_one_thing()
    ensures said { (account : Option (List ℕ)) (text : List ℕ) → AnswersDocument (IsProcessTable account) text (process_document text account) }
    ensures only { (account : Option (List ℕ)) (text : List ℕ) (answer : Read Keys) →
        AnswersDocument (IsProcessTable account) text answer → answer ≢ Err invalid.OutOfMemory → answer ≡ process_document text account }
{}

/// A process fails by what the last entry of its part shows, and gives credentials where that shows no
/// fault.
pub fn a_process_fails_by_its_last_entry()
    ensures { (command : List ℕ) (account : Option (List ℕ)) (part : List Pair) (out : Result Keys Refusal) →
        Reads (credential_process command account) part out → result_err out ≡ why_process account part }
{}

/// Web identity fails by a variable that is missing, or by what the last entry of its part shows, and
/// gives credentials where that shows no fault. What limits its sessions plays no part in that.
pub fn web_identity_fails_by_its_last_entry()
    ensures given { (conf : Configuration) (given : Option Given) (policies : Policies) (part : List Pair) (out : Result Keys Refusal) →
        Reads (web_identity conf given policies) part out → result_err out ≡ why_web_identity conf given part }
    ensures identity { (conf : Configuration) (base : List ℕ) (identity : Identity) (policies : Policies) (part : List Pair) (out : Result Keys Refusal) →
        Reads (assumes_by_web_identity conf base identity policies) part out → result_err out ≡ option_and_then why_entry (last_or None part) }
{}

/// Each request of a call of the provider of a container's credentials goes to the agent of Amazon ECS, or
/// to the target of the full address that its variable holds: HTTPS, an allowed address, or a name that has
/// allowed addresses alone by the call's look-up. It holds of a call for which memory ran out, too.
pub fn a_container_call_asks_safe_targets<D: Devices>()
    ensures answered { (setup : ContainerSetup) (before later : Held D) (out : Result Keys Refusal) →
        ProvidesContainer ⟦<D as Devices>⟧ setup before later out →
        Gains before.journal later.journal (AsksSafely setup.configuration.environment (settings_in setup)) }
    ensures interrupted { (setup : ContainerSetup) (before later : Held D) →
        InterruptedContainer ⟦<D as Devices>⟧ setup before later →
        Gains before.journal later.journal (AsksSafely setup.configuration.environment (settings_in setup)) }
{}
