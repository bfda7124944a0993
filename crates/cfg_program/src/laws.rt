//! Laws of runs, each on a call that carries it.
ghost use Rattle.std.specs.Prelude.{◌≡◌, ℕ, List, All, Bool, Option, Some, IsSome, IsTrue};
ghost use Rattle.percent_encoding.specs.AsciiSet.{should_percent_encode};
ghost use Rattle.cfg_world.specs.Fits.{Pair};
ghost use Rattle.cfg_world.specs.declared.script.DeviceLists.{DeviceLists as Lists};
ghost use Rattle.cfg_chain.specs.Settings.{ChainSetting};
ghost use Rattle.cfg_providers.specs.CustomSources.{NamedAnswer};
ghost use Rattle.cfg_endpoint.specs.Calls.{IsEarly};
ghost use Rattle.cfg_script.specs.declared.endpoint.EndpointScript.{EndpointScript as EndpointSaid};
ghost use Rattle.cfg_script.specs.Script.{Plain, PlainAudit};
ghost use Rattle.cfg_program.specs.declared.causes.Below.{Below};
ghost use Rattle.cfg_program.specs.declared.status.Status.{Status as Ended};
ghost use Rattle.cfg_program.specs.declared.commands.Command.{Command};
ghost use Rattle.cfg_program.specs.declared.shared_commands.SharedCommand.TheVariants.{Share, Gated};
ghost use Rattle.cfg_program.specs.declared.lines.LineForm.{LineForm as Form};
ghost use Rattle.cfg_program.specs.declared.input.TheConstants.{LIMIT};
ghost use Rattle.cfg_program.specs.declared.lines.TheConstants.{ESCAPED};
ghost use Rattle.cfg_program.specs.declared.commands.TheConstants.{MOST_PROFILES};
ghost use Rattle.cfg_program.specs.Inputs.{most_bytes};
ghost use Rattle.cfg_program.specs.Commands.{most_profiles};
ghost use Rattle.cfg_program.specs.Escapes.{escaped_in_word};
ghost use Rattle.cfg_program.specs.Calls.{AnswersOver, Answers};
ghost use Rattle.cfg_program.specs.Cached.{CachedAnswers};
ghost use Rattle.cfg_program.specs.Endpoints.{made_endpoint_of, EndpointAnswers, ForgetsNothing, GiveServed};
ghost use Rattle.cfg_program.specs.Generated.{GeneratedAnswers};
ghost use Rattle.cfg_program.specs.Run.{Seen, EndsRun};
ghost use Rattle.cfg_program.specs.Scripts.{reads_input, share_of_one_call};
ghost use Rattle.cfg_program.specs.Streams.{SourceSeen, SinkSeen};
ghost use Rattle.cfg_program.specs.SharedRun.{EndsShared};
ghost use Rattle.cfg_program.specs.Regions.{RegionAnswers};
ghost use Rattle.cfg_program.specs.Tokens.{TokenAnswers};
ghost use Rattle.cfg_program.specs.Explained.{ExplainAnswers};
ghost use Rattle.cfg_program.specs.Audited.{AuditAnswers};
ghost use Rattle.cfg_program.specs.Local.{Handed, LocalAnswers};
ghost use Rattle.cfg_program.specs.Exclusion.{BytesAreKnown, AppendTheSame, GainTheSame, ReadingCallsFor, CallsFor, depends_on_input, comes};

/// The public numbers are those that the statements of runs name, and the public set has, of the bytes of ASCII,
/// those that the lines escape in a text.
pub fn constants_are_those_of_the_statements()
    ensures bytes { LIMIT ≡ most_bytes }
    ensures profiles { MOST_PROFILES ≡ most_profiles }
    ensures escaped { (b : ℕ) → should_percent_encode ESCAPED b ≡ escaped_in_word b }
{}

/// So many calls of chains of one setting over one script of devices have one list of lines in a form, and one
/// status.
pub fn calls_have_one_list_of_lines()
    ensures { (over : ChainSetting) (lists : Lists) (count : ℕ) (form : Form)
        (is_credentials is_other : Bool) (lines other : List ℕ)
        → AnswersOver over lists count form is_credentials lines → AnswersOver over lists count form is_other other
        → (is_credentials ≡ is_other) × (lines ≡ other) }
{}

/// A script has one list of lines in a form, and one status, where the caller's own sources are the same.
pub fn one_script_has_one_list_of_lines()
    ensures { (sources : List NamedAnswer) (form : Form) (script : Plain) (is_credentials is_other : Bool) (lines other : List ℕ) →
        Answers sources form script is_credentials lines → Answers sources form script is_other other → (is_credentials ≡ is_other) × (lines ≡ other) }
{}

/// A script has one list of lines of its calls under one name of a cache, and one status, where the caller's own sources
/// are the same.
pub fn one_script_has_one_list_of_cached_lines()
    ensures { (sources : List NamedAnswer) (script : Plain) (is_credentials is_other : Bool) (lines other : List ℕ) →
        CachedAnswers sources script is_credentials lines → CachedAnswers sources script is_other other → (is_credentials ≡ is_other) × (lines ≡ other) }
{}

/// A script has one line of its default region chain, and one status.
pub fn one_script_has_one_region()
    ensures { (script : Plain) (is_there is_other : Bool) (line other : List ℕ) →
        RegionAnswers script is_there line → RegionAnswers script is_other other → (is_there ≡ is_other) × (line ≡ other) }
{}

/// A script has one line of its default token chain, with what stands below it, and one status.
pub fn one_script_has_one_token()
    ensures { (below : Below) (script : Plain) (is_token is_other : Bool) (line other : List ℕ) →
        TokenAnswers below script is_token line → TokenAnswers below script is_other other → (is_token ≡ is_other) × (line ≡ other) }
{}

/// The object of an endpoint has one list of lines, and one status.
pub fn one_endpoint_has_one_list_of_lines()
    ensures { (s : EndpointSaid) (is_credentials is_other : Bool) (lines other : List ℕ) →
        EndpointAnswers s is_credentials lines → EndpointAnswers s is_other other → (is_credentials ≡ is_other) × (lines ≡ other) }
{}

/// The calls over an endpoint each give what it serves, where it forgets no token before the last of them, and the clock
/// leaves room for the lifetime of a session token.
pub fn calls_over_an_endpoint_give_what_is_served()
    ensures { (bytes : List ℕ) (s : EndpointSaid) (is_credentials : Bool) (lines : List ℕ) →
        made_endpoint_of bytes ≡ Some s → ForgetsNothing s → All IsEarly s.clock →
        EndpointAnswers s is_credentials lines → GiveServed s is_credentials lines }
{}

/// A script has one list of lines that tell who asked each question of its call, and one status, where the caller's own
/// sources are the same.
pub fn one_script_is_explained_in_one_way()
    ensures { (sources : List NamedAnswer) (script : Plain) (is_credentials is_other : Bool) (lines other : List ℕ) →
        ExplainAnswers sources script is_credentials lines → ExplainAnswers sources script is_other other → (is_credentials ≡ is_other) × (lines ≡ other) }
{}

/// The script of an audit has one line, and one status, where the caller's own sources are the same.
pub fn one_script_has_one_audit()
    ensures { (sources : List NamedAnswer) (script : PlainAudit) (is_yes is_other : Bool) (line other : List ℕ) →
        AuditAnswers sources script is_yes line → AuditAnswers sources script is_other other → (is_yes ≡ is_other) × (line ≡ other) }
{}

/// The call over what is handed in has one line, and one status, for what the world's journal gained.
pub fn one_journal_has_one_line()
    ensures { (handed : Handed) (part : List Pair) (is_credentials is_other : Bool) (line other : List ℕ) →
        LocalAnswers handed part is_credentials line → LocalAnswers handed part is_other other → (is_credentials ≡ is_other) × (line ≡ other) }
{}

/// A number has one line, and one status.
pub fn one_number_has_one_line()
    ensures { (n : ℕ) (is_credentials is_other : Bool) (line other : List ℕ) →
        GeneratedAnswers n is_credentials line → GeneratedAnswers n is_other other → (is_credentials ≡ is_other) × (line ≡ other) }
{}

/// Of the statuses that depend on the command, the input and the world's answers alone, one run meets the case of one,
/// where the bytes of the input are known.
pub fn statuses_exclude_one_another()
    ensures { (seen : Seen) (handed : Handed) (command : Option Command) (one other : Ended)
        → BytesAreKnown seen → IsTrue (depends_on_input one) → IsTrue (depends_on_input other)
        → EndsRun seen handed command one → EndsRun seen handed command other → one ≡ other }
{}

/// Two runs over the same known input to which the same is handed, whatever their sinks held, end with the same
/// status and write the same bytes, where the journals of their worlds gain the same, and the status of both depends
/// on the command, the input and the world's answers alone.
pub fn runs_over_one_input_are_alike()
    ensures { (one other : Seen) (handed : Handed) (command : Option Command) (ended ended_other : Ended)
        → BytesAreKnown one → one.source.left ≡ other.source.left → GainTheSame one other
        → IsTrue (depends_on_input ended) → IsTrue (depends_on_input ended_other)
        → EndsRun one handed command ended → EndsRun other handed command ended_other → (ended ≡ ended_other) × AppendTheSame one other }
{}

/// Where the bytes of the input call for a refusal (no script, or too long), whatever was written, a run of a
/// command that reads them ends with it, or with a fault, or memory runs out.
pub fn a_refusal_comes_where_the_input_calls_for_it()
    ensures { (seen : Seen) (handed : Handed) (command : Command) (cause ended : Ended)
        → BytesAreKnown seen → IsTrue (reads_input command) → CallsFor seen command cause → IsTrue (depends_on_input ended)
        → EndsRun seen handed (Some command) ended → ended ≡ cause }
{}

/// Where the bytes of the input call for a refusal of callers (no script of several callers, each of which makes one
/// call, or too long), a run over callers ends with it, or with a fault, or memory runs out.
pub fn a_refused_share_comes_where_the_input_calls_for_it()
    ensures share { (source : SourceSeen) (sink : SinkSeen) (sources : List NamedAnswer) (cause ended : Ended)
        → IsSome source.left → ReadingCallsFor source share_of_one_call cause → IsTrue (depends_on_input ended)
        → EndsShared source sink sources (Some Share) ended → ended ≡ cause }
    ensures gated { (source : SourceSeen) (sink : SinkSeen) (sources : List NamedAnswer) (cause ended : Ended)
        → IsSome source.left → ReadingCallsFor source share_of_one_call cause → IsTrue (depends_on_input ended)
        → EndsShared source sink sources (Some Gated) ended → ended ≡ cause }
{}

/// No run of [`run`](crate::run::run), and none of the command `gated`, ends as one over a history that differs, or as
/// one that needs what is not built.
pub fn two_statuses_never_come()
    ensures run { (seen : Seen) (handed : Handed) (command : Option Command) (ended : Ended) → EndsRun seen handed command ended → IsTrue (comes ended) }
    ensures gated { (source : SourceSeen) (sink : SinkSeen) (sources : List NamedAnswer) (ended : Ended)
        → EndsShared source sink sources (Some Gated) ended → IsTrue (comes ended) }
{}
