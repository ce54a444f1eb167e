//! The laws of a device's side, as the contract of a function that does nothing. The layer above cites the lemmas that prove them.
ghost use Rattle.std.specs.Prelude.{◌≡◌, ◌++◌, ℕ, Bool, List, [], Option, Some, None, Result};
ghost use Rattle.acquisition.specs.Watching.{powered_up};
ghost use Rattle.acquisition.specs.declared.fix.Fix.{Fix};
ghost use Rattle.avl_values.specs.Record.{Record};
ghost use Rattle.avl_values.specs.declared.errors.MediumFault.{MediumFault};
ghost use Rattle.tracker_session.specs.declared.round_end.RoundEnd.{RoundEnd};
ghost use Rattle.trial_model.specs.Decisions.{DeviceHistory, after_connection, after_fix, before_all};
ghost use Rattle.trial_model.specs.Script.{Device};
ghost use Rattle.trial_device.specs.SideLines.{PowersSide, RoundsSide, end_of};
ghost use Rattle.trial_device.specs.Sides.{IsSideSound, Side};
ghost use Rattle.trial_device.specs.Starting.{StartsSide};
ghost use Rattle.trial_device.specs.Storing.{FixesSide};

/// What is true of a device's side before the first line stays true by each line of the device, whatever a power loss at any call
/// of its medium may leave.
pub fn each_line_keeps_a_side_sound()
    ensures starts { (device : Device) → (d : Side) → StartsSide device d → (d.device ≡ device) × IsSideSound [] before_all d }
    ensures fixed { (heard : List Record) → (h : DeviceHistory) → (fix : Fix) → (d : Side) → (e : Side) → IsSideSound heard h d → FixesSide fix d e → (e.device ≡ d.device) × IsSideSound heard (after_fix d.device h fix) e }
    ensures powered { (heard : List Record) → (h : DeviceHistory) → (d : Side) → (e : Side) → IsSideSound heard h d → PowersSide d e → (e.device ≡ d.device) × IsSideSound heard (record h { watching = powered_up; fuse = None }) e }
    ensures fused { (heard : List Record) → (h : DeviceHistory) → (calls : ℕ) → (d : Side) → IsSideSound heard h d → IsSideSound heard (record h { fuse = Some calls }) (record d { fuse = Some calls }) }
    ensures rounded { (drains : Bool) → (result : Result RoundEnd MediumFault) → (frames : ℕ) → (heard : List Record) → (released : List Record) → (h : DeviceHistory) → (d : Side) → (e : Side) → IsSideSound heard h d → RoundsSide drains result frames released d e → (e.device ≡ d.device) × IsSideSound (heard ++ released) (after_connection drains (Some (end_of result)) h) e }
{}
