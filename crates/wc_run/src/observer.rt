ghost use Rattle.std.specs.Prelude.{◌≡◌, ⊤, ℕ, Bool, true, List, [], ◌∷◌, Option, IfErr, OnOk};
ghost use Rattle.wc_model.specs.Definitions.{PlateData, LogRefusal, LogRow, Past, Logic};
ghost use Rattle.wc_run.specs.Doing.{Writes};
ghost use Rattle.wc_run.specs.Observing.{IsLookedAt, IsShown, Plan, RefusesToBegin, Start, loaded_of, logic_of, onto, refusal_of, row_of, said, start_of};
ghost use Rattle.wc_run.specs.Runs.{IsNoRefusal, ReportsWrites};
ghost use Rattle.wc_run.specs.Representation.{Represents};

use crate::fault::RunFault;
use crate::log_scale::LogScale;
use crate::program::Program;
use crate::row_seen::RowSeen;
use wc_model::ByteOut;
use wc_store::Store;

/// Who observes a run: it is shown each row that was done with what the row brought, and writes what it has to say of it. Whoever
/// observes, the rows are done in the same way. `S` is the store of the machine that does the scans, `W` the writer.
pub trait Observer<S: Store, W: ByteOut> {
    /// What it was made with and keeps.
    ghost Settings: { Type 0 } = { Unit {0} };

    ghost settings: { Self → Settings };

    /// What it writes of each row, and after the last one.
    ghost plan: { Self → Plan };

    /// Whether the plan says what the writer takes; else nothing is said of the bytes.
    ghost speaks: { Bool } = { true };

    /// Whether it begins a run with this logic. If not, it refuses to.
    ghost begins: { Self → Option Logic → Bool } = { λ _ _. true };

    /// What it holds after it has refused to begin a run with this logic, by what it was before.
    ghost has_refused: { Self → Self → Option Logic → Type 0 } = { λ _ _ _. ⊤ };

    /// That it has seen no row yet.
    ghost is_new: { Self → Type 0 } = { λ _. ⊤ };

    /// It has seen these rows, the newest first, of a run with this plate and this logic.
    ghost has_seen: { Self → PlateData → Option Logic → Past → Type 0 };

    /// Whether it looks at the items of a scan at this moment.
    ghost looks: { Self → ℕ → Bool → Type 0 } = { λ _ _ _. ⊤ };

    /// What it says of the bytes that its writer has taken after these rows, of a run that began so. An observer that says by
    /// its plan what it writes says no more here.
    ghost has_written: { Self → Start → Option (List ℕ) → PlateData → Option Logic → Past
        → Type 0 } = { λ _ _ _ _ _ _. ⊤ };

    /// What it says of them, and holds itself, after the end of a run of these rows, with the refusal after them or with none.
    ghost has_ended: { Self → Settings → Start → Option (List ℕ) → PlateData → Option Logic
        → List LogRow → Option LogRefusal → Type 0 };

    /// Is shown the programs of a run before its first row: the first one, if there is one, and the next one, if there is one.
    /// It fails when out of memory, or refuses to begin: what it was to write of cannot be had of these programs.
    fn begin(
        &mut self,
        first: Option<Program<'_, '_>>,
        next: Option<Program<'_, '_>>,
    ) -> Result<(), RunFault>
        requires { is_new self.old }
        ensures settings { settings self.new ≡ settings self.old }
        ensures plan { plan self.new ≡ plan self.old }
        ensures seen { OnOk result ((plate : PlateData)
            → has_seen self.new plate (logic_of (loaded_of first.entry)
            (loaded_of next.entry)) []) }
        ensures written { OnOk result ((plate : PlateData) (taken : Option (List ℕ))
            → has_written self.new (start_of first.entry next.entry taken) taken plate
            (logic_of (loaded_of first.entry) (loaded_of next.entry)) []) }
        ensures begins { OnOk result
            (begins self.old (logic_of (loaded_of first.entry) (loaded_of next.entry)) ≡ true) }
        ensures refused { IfErr result (RefusesToBegin
            (begins self.old (logic_of (loaded_of first.entry) (loaded_of next.entry)))
            (has_refused self.old self.new
            (logic_of (loaded_of first.entry) (loaded_of next.entry)))) };

    /// Whether it looks at the items that a scan at this moment executes.
    fn looks_at(&self, ms: u64) -> bool
        ensures looks { looks self.now ms result };

    /// Is shown a row that was done, and the scale after it. It fails if the writer does, or when out of memory; the run ends
    /// there.
    fn see(
        &mut self,
        seen: &RowSeen<'_>,
        scale: &LogScale<'_, S>,
        writer: &mut W,
    ) -> Result<(), RunFault>
        ensures settings { settings self.new ≡ settings self.old }
        ensures plan { plan self.new ≡ plan self.old }
        ensures writes { (plate : PlateData) (logic : Option Logic) (past : Past)
            → IsShown seen.now plate logic past
            → Represents scale.now plate logic (row_of seen.now ∷ past)
            → has_seen self.old plate logic past
            → Writes ((plan self.old).at_row plate logic past (row_of seen.now)) result
            (said speaks (W.bytes_taken writer.old)) (said speaks (W.bytes_taken writer.new)) }
        ensures seen { OnOk result ((plate : PlateData) (logic : Option Logic) (past : Past)
            → IsShown seen.now plate logic past
            → Represents scale.now plate logic (row_of seen.now ∷ past)
            → has_seen self.old plate logic past
            → has_seen self.new plate logic (row_of seen.now ∷ past)) }
        ensures written { OnOk result ((start : Start) (plate : PlateData) (logic : Option Logic)
            (past : Past) (looked : Bool) → looks self.old seen.now.row.ms looked
            → IsLookedAt seen.now.scan looked → IsShown seen.now plate logic past
            → Represents scale.now plate logic (row_of seen.now ∷ past)
            → has_seen self.old plate logic past
            → has_written self.old start (W.bytes_taken writer.old) plate logic past
            → has_written self.new start (W.bytes_taken writer.new) plate logic
            (row_of seen.now ∷ past)) }
        ensures held { IfErr result IsNoRefusal }
        ensures failures { ReportsWrites result (W.failure_count writer.old)
            (W.failure_count writer.new) };

    /// Is informed that the rows are over: all were done, or those before a refused row, by its number and the row.
    fn end(&mut self, refused: Option<(u16, u32)>, writer: &mut W) -> Result<(), RunFault>
        ensures writes { (plate : PlateData) (logic : Option Logic) (past : Past)
            → has_seen self.old plate logic past
            → Writes ((plan self.old).at_end plate logic (onto past []) (refusal_of refused))
            result (said speaks (W.bytes_taken writer.old))
            (said speaks (W.bytes_taken writer.new)) }
        ensures ended { OnOk result ((start : Start) (plate : PlateData) (logic : Option Logic)
            (past : Past) → has_seen self.old plate logic past
            → has_written self.old start (W.bytes_taken writer.old) plate logic past
            → has_ended self.new (settings self.old) start (W.bytes_taken writer.new) plate
            logic (onto past []) (refusal_of refused)) }
        ensures held { IfErr result IsNoRefusal }
        ensures failures { ReportsWrites result (W.failure_count writer.old)
            (W.failure_count writer.new) };
}
