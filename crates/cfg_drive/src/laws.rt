//! Laws of conversations, each on a call that carries it.
ghost use Rattle.std.specs.Prelude.{◌≡◌, ℕ, List, [], ◌++◌, Bool, is_ok, codes};
ghost use Rattle.cfg_chain.specs.Settings.{with_sources};
ghost use Rattle.cfg_providers.specs.CustomSources.{Answer};
ghost use Rattle.cfg_script.specs.Script.{Plain};
ghost use Rattle.cfg_program.specs.declared.causes.Below.TheVariants.{Nothing};
ghost use Rattle.cfg_program.specs.declared.lines.LineForm.TheVariants.{Call};
ghost use Rattle.cfg_program.specs.Calls.{Answers, configuration_of};
ghost use Rattle.cfg_program.specs.Lines.{shown};
ghost use Rattle.cfg_program.specs.Streams.{SourceSeen, SinkSeen};
ghost use Rattle.cfg_drive.specs.Conversations.{Exchange, journal_of};
ghost use Rattle.cfg_drive.specs.Driven.{TellsCall};
ghost use Rattle.cfg_drive.specs.Replays.{HasOneContent, IsReplayable, script_made};

/// Where no path is read with two contents, the lines of a conversation put together are a script of which `resolve`
/// writes the line of the same call, and no other.
pub fn a_conversation_replays()
    ensures writes { (first : Plain) (xs : List Exchange) (out : Answer) → IsReplayable first xs out →
        Answers [] (Call Nothing) (script_made first xs) (is_ok out) (shown out (journal_of xs)) }
    ensures alone { (first : Plain) (xs : List Exchange) (out : Answer) (is_credentials : Bool) (lines : List ℕ) → IsReplayable first xs out →
        Answers [] (Call Nothing) (script_made first xs) is_credentials lines → (is_credentials ≡ is_ok out) × (lines ≡ shown out (journal_of xs)) }
{}

/// It is the line that the last line of a whole conversation has, and the script comes to credentials exactly where the
/// conversation does.
pub fn the_last_line_has_the_line_of_the_script()
    ensures { (first : Plain) (source : SourceSeen) (sink : SinkSeen) (is_credentials : Bool)
        (told : TellsCall (with_sources (configuration_of first) []) source sink is_credentials) →
        first.calls ≡ 1 → HasOneContent (journal_of told.exchanges) →
        Answers [] (Call Nothing) (script_made first told.exchanges) is_credentials (told.tells.resolved ++ codes "\n") }
{}
