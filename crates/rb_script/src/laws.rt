//! Laws of scripts: what the answers to their lines are. Each law is a public function that does
//! nothing; its contract is the law. Call the function to use the law.

ghost use Rattle.std.specs.Prelude.{◌≡◌, ◌++◌, ◌∷◌, [], ℕ, List, Some, None, slice_get};
ghost use Rattle.std.specs.List.{AllByRecursion};
ghost use Rattle.rb_desk.specs.{IsPicture.{AreInRange}, Limits.{Limits}};
ghost use Rattle.rb_core.specs.{Headline.{KeepsHeadline}, Moves.{HasRun}, Run.{FeedsBytes, Run}};
ghost use Rattle.rb_core.specs.{State.{empty_tables, empty_world}, Told.{world_told}};
ghost use Rattle.rb_core.specs.World.{Subscriber};
ghost use Rattle.rb_script.specs.declared.lines.Stage.{Stage};
ghost use Rattle.rb_script.specs.declared.lines.Stage.TheVariants.{Tables};
ghost use Rattle.rb_script.specs.declared.answering.Answering.{Answering};
ghost use Rattle.rb_script.specs.Answering.{answered_lines, lines_reached, numbered_answers};
ghost use Rattle.rb_script.specs.Answering.{is_refusal, plainly, script_output, script_stop};
ghost use Rattle.rb_script.specs.{ScriptSchema.{schema_of_script}, Lines.{line_answer, world_of}};
ghost use Rattle.rb_script.specs.{Output.{answers, first_place, written}, Refusing.{line_refused}};
ghost use Rattle.rb_script.specs.Script.{IsLine, ended_lines, lines_answers, lines_events};
ghost use Rattle.rb_script.specs.Script.{lines_of, lines_replies, stage_after, whole_lines};

use rb_core::laws::{accepted_is_gapless, runs_keep_the_headline, subscriptions_begin_as_asked};

/// The output for a script is the answers to its lines, one after another. The last line has no
/// line end.
pub fn lines_are_answered()
    ensures { (config : Limits) (lines : List (List ℕ)) (last : List ℕ)
        → AllByRecursion IsLine lines → IsLine last
        → answers config (ended_lines lines ++ last)
        ≡ lines_answers config (Tables []) (lines ++ last ∷ []) }
{}

/// The events in a script's lines, with the replies to them, are a run. It leads from the empty
/// world of the tables that the script declares to the world after all lines.
pub fn scripts_are_runs()
    ensures { (config : Limits) (lines : List (List ℕ))
        → Run (empty_world config (schema_of_script lines)) (lines_events lines)
        (lines_replies config (Tables []) lines)
        (world_of config (stage_after config (Tables []) lines)) }
{}

/// The events in a script's lines feed bytes.
pub fn scripts_feed_bytes()
    ensures { (lines : List (List ℕ)) → AllByRecursion FeedsBytes (lines_events lines) }
{}

/// According to a script's events and replies, a subscription has accepted one contiguous run of
/// the sequence after its start. No number is skipped, and none comes twice. In the same way, every
/// law of runs holds for scripts.
pub fn accepted_lines_are_gapless()
    ensures { (config : Limits) (lines : List (List ℕ)) → AreInRange config
        → (s : ℕ) (subscriber : Subscriber)
        → slice_get (world_told (schema_of_script lines) (lines_events lines)
        (lines_replies config (Tables []) lines)).subscribers s ≡ Some subscriber
        → HasRun (world_of config (stage_after config (Tables []) lines)).sequence subscriber }
{
    scripts_are_runs();
    scripts_feed_bytes();
    accepted_is_gapless();
}

/// Every subscription of a script begins with empty tables, since no line makes one that keeps no
/// rows. So the tables in the headline of a script are those of empty tables.
pub fn script_subscriptions_begin_empty()
    ensures { (config : Limits) (lines : List (List ℕ)) (s : ℕ) (subscriber : Subscriber)
        → slice_get (world_told (schema_of_script lines) (lines_events lines)
        (lines_replies config (Tables []) lines)).subscribers s ≡ Some subscriber
        → subscriber.base ≡ empty_tables (schema_of_script lines) }
{
    subscriptions_begin_as_asked();
}

/// The headline of a script, whatever its lines are and whether or not the last one has its end.
/// What is written is the answers to its lines, and these keep the headline: under the schema that
/// the script's own `table` lines declare, and of the world after its last line.
pub fn scripts_keep_the_headline()
    ensures { (config : Limits) (lines : List (List ℕ)) (last : List ℕ) → AreInRange config
        → AllByRecursion IsLine lines → IsLine last
        → (answers config (ended_lines lines ++ last)
        ≡ lines_answers config (Tables []) (lines ++ last ∷ []))
        × KeepsHeadline (schema_of_script (lines ++ last ∷ [])) (lines_events (lines ++ last ∷ []))
        (lines_replies config (Tables []) (lines ++ last ∷ []))
        (world_of config (stage_after config (Tables []) (lines ++ last ∷ []))) }
{
    lines_are_answered();
    lines_keep_the_headline();
}

// The headline of the events in lines and the replies to them.
fn lines_keep_the_headline()
    ensures { (config : Limits) (lines : List (List ℕ)) → AreInRange config
        → KeepsHeadline (schema_of_script lines) (lines_events lines)
        (lines_replies config (Tables []) lines)
        (world_of config (stage_after config (Tables []) lines)) }
{
    scripts_are_runs();
    scripts_feed_bytes();
    runs_keep_the_headline();
}

/// Without numbers, and if every line is answered, the output is the answers that the other laws
/// speak of, and no line stops the script.
pub fn plain_output_is_the_answers()
    ensures all { (config : Limits) (input : List ℕ)
        → script_output plainly config (lines_of input) ≡ answers config input }
    ensures whole { (config : Limits) (input : List ℕ)
        → script_output plainly config (whole_lines input) ≡ written config first_place input }
    ensures none { (config : Limits) (lines : List (List ℕ))
        → script_stop plainly config lines ≡ None }
{}

/// A script's lines are found again in it. The last line has no line end.
pub fn lines_are_found()
    ensures { (lines : List (List ℕ)) (last : List ℕ) → AllByRecursion IsLine lines → IsLine last
        → lines_of (ended_lines lines ++ last) ≡ lines ++ last ∷ [] }
{}

/// The headline of a script, however it is answered. What is written is the answers to the lines
/// that are reached, and these keep the headline: under the schema that the `table` lines among
/// them declare, and of the world after the last of them.
pub fn answerings_keep_the_headline()
    ensures { (how : Answering) (config : Limits) (lines : List (List ℕ)) (last : List ℕ)
        → AreInRange config → AllByRecursion IsLine lines → IsLine last
        → (reached : List (List ℕ))
        × (reached ≡ lines_reached how config (Tables []) (lines ++ last ∷ []))
        × (script_output how config (lines_of (ended_lines lines ++ last))
        ≡ numbered_answers how 1 (answered_lines config (Tables []) reached))
        × KeepsHeadline (schema_of_script reached) (lines_events reached)
        (lines_replies config (Tables []) reached)
        (world_of config (stage_after config (Tables []) reached)) }
{
    lines_are_found();
    lines_keep_the_headline();
}

/// An answer begins with `refused` or `fault` exactly if its line is refused or faulty.
pub fn refusals_begin_so()
    ensures { (config : Limits) (stage : Stage) (line : List ℕ)
        → is_refusal (line_answer config stage line).0 ≡ line_refused config stage line }
{}
