//! Laws, each on a call that carries it.
ghost use Rattle.std.specs.Prelude.{◌≡◌, ◌≢◌, ◌↔◌, ℕ, ◌+◌, Bool, true, List, Result, Ok, Err};
ghost use Rattle.std.specs.List.{AllByRecursion};
ghost use Rattle.std.specs.Result.{result_err};
ghost use Rattle.cfg_types.specs.Keys.{Keys};
ghost use Rattle.cfg_types.specs.Environment.{Variables};
ghost use Rattle.cfg_types.specs.declared.errors.CredentialsError.{CredentialsError as Refusal};
ghost use Rattle.cfg_types.specs.declared.document.InvalidJsonCredentials.TheVariants as invalid;
ghost use Rattle.cfg_json.specs.declared.credentials.JsonCredentials.{JsonCredentials};
ghost use Rattle.cfg_json.specs.Documents.{Read, AnswersDocument, IsTable};
ghost use Rattle.cfg_world.specs.declared.ask.Question.{Question};
ghost use Rattle.cfg_world.specs.declared.ask.Answer.{Answer};
ghost use Rattle.cfg_world.specs.Fits.{Pair};
ghost use Rattle.cfg_world.specs.Inquiry.{Reads, Begun};
ghost use Rattle.cfg_exchange.specs.Documents.{document};
ghost use Rattle.cfg_exchange.specs.Attempts.{attempts, Attempts};
ghost use Rattle.cfg_exchange.specs.declared.target.Target.{Target as TargetGiven};
ghost use Rattle.cfg_exchange.specs.declared.full_uri.FullUri.{FullUri as Named};
ghost use Rattle.cfg_exchange.specs.FullUris.{IsFullUri};
ghost use Rattle.cfg_exchange.specs.Targets.{full_target};
ghost use Rattle.cfg_exchange.specs.AllowedTargets.{IsAllowedTarget};
ghost use Rattle.cfg_exchange.specs.declared.container.ContainerSettings.{ContainerSettings as Settings};
ghost use Rattle.cfg_exchange.specs.declared.container.ContainerUri.{ContainerUri as Place};
ghost use Rattle.cfg_exchange.specs.Containers.{IsContainerUri, container};
ghost use Rattle.cfg_exchange.specs.ContainerCauses.{why_container};
ghost use Rattle.cfg_types.specs.Classes.{is_not_loaded_answer};
ghost use Rattle.cfg_exchange.specs.ContainerUnset.{IsUnset};
ghost use Rattle.cfg_exchange.specs.ContainerRequests.{look_ups, IsSafeQuestion};

/// The journal of an exchange is attempts of its request, and the other way round: at least one and at
/// most the limit, all of the same question. All but the last are repeated; the last is not, or the
/// limit is reached.
pub fn an_exchange_is_its_attempts()
    ensures { (more : ℕ) (q : Question) (repeats : Answer → Bool) (part : List Pair) (last : Pair) →
        Reads (attempts more q repeats) part last ↔ Attempts q (more + 1) repeats part last }
{}

/// What a document says is the one answer that its grammar and its table of fields allow, beside want
/// of memory.
pub fn a_document_says_one_thing()
    ensures said { (text : List ℕ) → AnswersDocument IsTable text (document text) }
    ensures only { (text : List ℕ) (answer : Read JsonCredentials) →
        AnswersDocument IsTable text answer → answer ≢ Err invalid.OutOfMemory → answer ≡ document text }
{}

/// A target that the check of a full address gives is HTTPS, or its host is an allowed address, or a
/// name whose addresses in this part are all allowed.
pub fn a_target_is_allowed()
    ensures { (text : List ℕ) (dns : Bool) (named : Named) (part : List Pair) (target : TargetGiven) →
        IsFullUri text named → Reads (full_target dns named) part (Ok target) → IsAllowedTarget text part target }
{}

/// The text of a full address names one thing, and the variables one address of a container.
pub fn a_container_has_one_address()
    ensures full { (text : List ℕ) (a b : Named) → IsFullUri text a → IsFullUri text b → a ≡ b }
    ensures variables { (env : Variables) (a b : Place) → IsContainerUri env a → IsContainerUri env b → a ≡ b }
{}

/// A container's answer has its cause in the variables and in the part, and it gives credentials
/// exactly where there is none: the token, else the address, else the last answer.
pub fn a_container_has_its_cause()
    ensures { (env : Variables) (settings : Settings) (place : Place) (part : List Pair) (out : Result Keys Refusal) →
        Reads (container env settings place) part out → result_err out ≡ why_container env settings place part }
{}

/// A container is passed over exactly where nothing is wrong with its token, neither address can be
/// read, and the token's file at most was read.
pub fn a_container_is_passed_over_where_no_address_is_set()
    ensures { (env : Variables) (settings : Settings) (place : Place) (part : List Pair) (out : Result Keys Refusal) →
        IsContainerUri env place → Reads (container env settings place) part out → (is_not_loaded_answer out ≡ true) ↔ IsUnset env part }
{}

/// Each request of a container goes to the agent of Amazon ECS, or to the target of the full address
/// that its variable holds. That is HTTPS, or its host is an allowed address, or a name that has
/// allowed addresses alone by a look-up in the same part. It holds of a part that has only begun, too.
pub fn a_container_asks_safe_targets()
    ensures { (env : Variables) (settings : Settings) (place : Place) (part : List Pair) →
        IsContainerUri env place → Begun (container env settings place) part → AllByRecursion (λ e. IsSafeQuestion env (look_ups part) e.0) part }
{}
