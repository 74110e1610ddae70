//! Laws between definitions.
ghost use Rattle.std.specs.Prelude.{◌≡◌, ◌↔◌, ℕ, List};
ghost use Rattle.mig_base.specs.InputLists.{InputLists};
ghost use Rattle.mig_base.specs.Rows.{ThreeFiles};
ghost use Rattle.mig_base.specs.Tasks.{Task};
ghost use Rattle.mig_base.specs.Safety.{Contents};
ghost use Rattle.mig_io.specs.Files.{Files};
ghost use Rattle.mig_top.specs.Alike.{AreReadAlike};
ghost use Rattle.mig_top.specs.Calls.{call, world};
ghost use Rattle.mig_top.specs.carry.InFlight.{ResumesInFlight};
ghost use Rattle.mig_top.specs.carry.Promise.{MovesWell};
ghost use Rattle.mig_top.specs.halt.Promise.{HaltsWell};
ghost use Rattle.mig_top.specs.live.Following.{HaltsAfter, ResumesAfter, ServesAfter};
ghost use Rattle.mig_mover.specs.Holdings.{IsUnrefused};
ghost use Rattle.mig_top.specs.live.Looks.{IsServable};
ghost use Rattle.mig_top.specs.live.Promise.{MayGoOn, ServesWell};
ghost use Rattle.mig_top.specs.live.Reads.{Scripted};
ghost use Rattle.mig_top.specs.Loads.{BeginWith, FindsTask, IsTaskOf, StandsBy, input_by, loads_input};
ghost use Rattle.mig_words.specs.Words.{Names, TaskNames};
ghost use Rattle.mig_words.specs.declared.words.Reader.{Reader};

use mig_io::{Folder, Sink};
use mig_store::Store;

/// The folder, the output and the store at one moment.
pub struct World<F, K, S> {
    pub folder: F,
    pub out: K,
    pub store: S,
}

/// What a file begins with is read as the whole file is.
pub fn reads_alike()
    ensures { AreReadAlike }
{}

/// What files stand for, told plainly, is what the steps find that load and read them: the bytes with which three files begin, what these stand for
/// by each reader, and what four files stand for.
pub fn finds_plainly()
    ensures files { (files : Files) (names : Names) (bodies : ThreeFiles) → BeginWith files names bodies ↔ (loads_input names files).Passes bodies }
    ensures inputs { (reader : Reader) (files : Files) (names : Names) (input : InputLists) → StandsBy reader files names input ↔ (input_by reader names files).Passes input }
    ensures tasks { (files : Files) (names : TaskNames) (task : Task) → IsTaskOf files names task ↔ FindsTask files names task }
{}

/// What a session leaves, whatever its status, `resume`, `halt` and another session take up: `run` was called twice, first with the words of
/// `live`, and these are the moments before both calls, between them and after them. The call does nothing.
pub fn sessions_go_on<F: Folder, K: Sink, S: Store>(
    first: &World<F, K, S>,
    between: &World<F, K, S>,
    last: &World<F, K, S>,
)
    ensures resumed { (read : Scripted) (contents : Contents) (session status : ℕ) → MayGoOn read.task contents (S.state first.now.store)
        → ServesWell (call S.refuses (world (F.state first.now.folder) (K.state first.now.out) (S.state first.now.store)) (world (F.state between.now.folder) (K.state between.now.out) (S.state between.now.store))) read session
        → MovesWell (call S.refuses (world (F.state between.now.folder) (K.state between.now.out) (S.state between.now.store)) (world (F.state last.now.folder) (K.state last.now.out) (S.state last.now.store))) read.task status → ResumesInFlight (call S.refuses (world (F.state between.now.folder) (K.state between.now.out) (S.state between.now.store)) (world (F.state last.now.folder) (K.state last.now.out) (S.state last.now.store))) read.task (¬ IsUnrefused read.task (S.state between.now.store)) status
        → ResumesAfter (call S.refuses (world (F.state between.now.folder) (K.state between.now.out) (S.state between.now.store)) (world (F.state last.now.folder) (K.state last.now.out) (S.state last.now.store))) read.task contents status }
    ensures halted { (read : Scripted) (contents : Contents) (session status : ℕ) (files : Files) (layout : List ℕ) → MayGoOn read.task contents (S.state first.now.store)
        → ServesWell (call S.refuses (world (F.state first.now.folder) (K.state first.now.out) (S.state first.now.store)) (world (F.state between.now.folder) (K.state between.now.out) (S.state between.now.store))) read session
        → (halts : HaltsWell (call S.refuses (world (F.state between.now.folder) (K.state between.now.out) (S.state between.now.store)) (world (F.state last.now.folder) (K.state last.now.out) (S.state last.now.store))) files read.task layout status)
        → HaltsAfter (call S.refuses (world (F.state between.now.folder) (K.state between.now.out) (S.state between.now.store)) (world (F.state last.now.folder) (K.state last.now.out) (S.state last.now.store))) read.task contents session status halts.rounds }
    ensures served { (read other : Scripted) (contents : Contents) (session status : ℕ) → MayGoOn read.task contents (S.state first.now.store)
        → ServesWell (call S.refuses (world (F.state first.now.folder) (K.state first.now.out) (S.state first.now.store)) (world (F.state between.now.folder) (K.state between.now.out) (S.state between.now.store))) read session → other.task ≡ read.task
        → (serves : ServesWell (call S.refuses (world (F.state between.now.folder) (K.state between.now.out) (S.state between.now.store)) (world (F.state last.now.folder) (K.state last.now.out) (S.state last.now.store))) other status) → ResumesInFlight (call S.refuses (world (F.state between.now.folder) (K.state between.now.out) (S.state between.now.store)) (world (F.state last.now.folder) (K.state last.now.out) (S.state last.now.store))) other.task (¬ IsServable other (S.state between.now.store)) status
        → ServesAfter (call S.refuses (world (F.state between.now.folder) (K.state between.now.out) (S.state between.now.store)) (world (F.state last.now.folder) (K.state last.now.out) (S.state last.now.store))) other contents status serves.rounds }
{}
