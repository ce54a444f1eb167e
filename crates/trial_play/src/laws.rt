//! The laws of a whole trial, as the contract of a function that does nothing. The loop above cites the lemmas that prove them.
ghost use Rattle.std.specs.Prelude.{◌++◌, [], ◌∷◌, List};
ghost use Rattle.journey_script.specs.Laws.{HasLaws};
ghost use Rattle.trial_model.specs.Kept.{Kept};
ghost use Rattle.trial_model.specs.Script.{Device, Script, devices_of, lines_of};
ghost use Rattle.trial_model.specs.declared.script.ScriptLine.{ScriptLine};
ghost use Rattle.trial_play.specs.OnMedia.{KeptOnMedia, benches_of};
ghost use Rattle.trial_play.specs.Outcomes.{outcome_of};
ghost use Rattle.trial_play.specs.Plays.{Plays, PlaysAll};
ghost use Rattle.trial_play.specs.Starting.{StartsTrial};
ghost use Rattle.trial_play.specs.Trials.{IsTrialSound, TrialState};

/// What is true of a trial before its first line stays true by each line, whatever a power loss at any call of a medium may leave; so a
/// trial that is played line by line keeps what the headline says of its outcome, and its benches hold what the outcome tells.
pub fn every_trial_is_kept()
    ensures starts { (devices : List Device) → (t : TrialState) → StartsTrial devices t → IsTrialSound devices [] t }
    ensures plays { (devices : List Device) → (lines : List ScriptLine) → (t : TrialState) → IsTrialSound devices lines t → (l : ScriptLine) → (new : TrialState) → Plays devices lines l t new → IsTrialSound devices (lines ++ l ∷ []) new }
    ensures kept { (script : Script) → (t : TrialState) → (new : TrialState) → HasLaws (lines_of script) → StartsTrial (devices_of (lines_of script)) t → PlaysAll (devices_of (lines_of script)) [] (lines_of script) t new → Kept script (outcome_of new) }
    ensures on_media { (script : Script) → (t : TrialState) → (new : TrialState) → HasLaws (lines_of script) → StartsTrial (devices_of (lines_of script)) t → PlaysAll (devices_of (lines_of script)) [] (lines_of script) t new → KeptOnMedia script (outcome_of new) (benches_of new) }
{}
