//! Laws of folders, in which a site keeps its set in parts by windows of time. Each law is the contract of a function with
//! an empty body. A site splits what it takes, joins each part with the part's file, and shows the union of all files.
//! What it holds is what whole files would have left, and so are all texts, inventories, sketches, seals and deltas: they
//! are computed of the union, by `exchange::runs_make_files`.
ghost use Rattle.std.specs.Prelude.{◌≡◌, ◌↔◌, false, List, [], ◌∷◌, ◌++◌, Option, None, Ok};
ghost use Rattle.std.specs.List.{flat_map};
ghost use Rattle.cadf_join.specs.Sets as set;
ghost use Rattle.cadf_join.specs.Contents.{Text, Texts, Contents, Has};
ghost use Rattle.cadf_line.specs.Atoms.{event_letter, begins_with};
ghost use Rattle.cadf_linefile.specs.Lines.{text_of_lines, with_line_feed};
ghost use Rattle.cadf_linefile.specs.Verdict.{digest_line};
ghost use Rattle.cadf_scan.specs.Instants.{body_instant};
ghost use Rattle.cadf_set.specs.Replica.{ReplicaModel};
ghost use Rattle.cadf_split.specs.declared.unit.Unit.{Unit};
ghost use Rattle.cadf_split.specs.Split.{split_head, part_line, noted_lines, replica_of_part, split_text};
ghost use Rattle.cadf_split.specs.Windows.{window, shared_key, part, part_keys};
ghost use Rattle.cadf_tool.specs.WrittenFile.{written_file};
ghost use Rattle.cadf_tool.specs.declared.input.Loaded.{Loaded};
ghost use Rattle.cadf_tool.specs.Input.{IsInput};
ghost use Rattle.cadf_tool.specs.Join.{join_of};
ghost use Rattle.cadf_tool.specs.Shown.{HaveSameOutput};
ghost use Rattle.cadf_tool.specs.Exchange.{Derivation, Joined, Kept, Files, End, File, is_in_part, IsResult, IsDerived};
ghost use Rattle.cadf_tool.specs.Exchange.{IsExchange, IsExact, AreExact, brought, brought_by, log_of, first_log};
ghost use Rattle.cadf_tool.specs.Folders.{Folder, all_files, IsFolderOf, HasParts, IsTaken, IsExchanged};
ghost use Rattle.cadf_tool.specs.Folders.{History, arrived, IsFolderAfter, AreFilesAfter};

/// States that what a split file has of a part, after the line with its name, is byte for byte what `join` writes of the
/// part.
pub fn parts_are_files()
    ensures split { (unit : Unit) (h : ReplicaModel) → split_text unit h ≡ text_of_lines (split_head unit h.log)
        ++ (flat_map (λ k. with_line_feed (part_line unit k) ++ written_file (replica_of_part unit h k)) (part_keys unit h.atoms)
        ++ with_line_feed (digest_line (split_head unit h.log ++ flat_map (noted_lines unit h) (part_keys unit h.atoms)))) }
    ensures derived { (unit : Unit) (log : Option Text) (files : Files) (h : ReplicaModel) (k : Text) → IsResult (Joined log files) h
        → IsDerived (Kept (is_in_part unit k) log files) (written_file (replica_of_part unit h k)) }
    // Read as an input and joined alone, it is that file again.
    ensures joined { (unit : Unit) (log : Option Text) (files : Files) (k : Text) (h : ReplicaModel) (loaded : Loaded)
        → IsResult (Kept (is_in_part unit k) log files) h → IsInput (written_file h) loaded → join_of None (loaded ∷ []) ≡ Ok h }
{}

/// States that the part of a window has exactly the atoms of the events of its instants, and the shared part those that
/// are of no event.
pub fn windows_have_their_instants()
    ensures window { (unit : Unit) (k id body : Text) (rest : Texts) (s : Contents) → Has (part unit k s) (event_letter ∷ id ∷ body ∷ rest)
        ↔ (Has s (event_letter ∷ id ∷ body ∷ rest) × (window unit (body_instant body) ≡ k)) }
    ensures shared { (unit : Unit) (q : Texts) (s : Contents) → begins_with event_letter q ≡ false → Has (part unit shared_key s) q ↔ Has s q }
{}

/// States that a folder is begun empty, and that a take leaves the parts of the union.
pub fn takes_leave_the_union()
    ensures begun { (unit : Unit) → IsFolderOf unit (λ k. End) set.empty }
    ensures taken { (unit : Unit) (log : Option Text) (files : Files) (old new : Folder) (s : Contents) → IsFolderOf unit old s
        → ((k : Text) → IsTaken unit log files (old k) (new k) k) → IsFolderOf unit new (set.union (brought_by files) s) }
    // The parts of a split are such a folder.
    ensures parts { (unit : Unit) (log : Option Text) (files : Files) → IsFolderOf unit (λ k. File (Kept (is_in_part unit k) log files) End) (brought_by files) }
{}

/// States that what a folder holds is what one file would: all its files together brought the set, so a run on them
/// results in what a run results in that brought it otherwise.
pub fn folders_are_their_union()
    ensures together { (unit : Unit) (at : Folder) (keys : List Text) (s : Contents) → IsFolderOf unit at s → HasParts unit keys s
        → brought_by (all_files at keys) ≡ s }
    ensures told { (unit : Unit) (at : Folder) (keys : List Text) (m : Derivation) (h k : ReplicaModel) → IsFolderOf unit at (brought m)
        → HasParts unit keys (brought m) → IsExchange (Joined None (all_files at keys)) → AreExact (all_files at keys) → IsExchange m → IsExact m
        → first_log (all_files at keys) ≡ log_of m → IsResult (Joined None (all_files at keys)) h → IsResult m k → HaveSameOutput h k }
{}

/// States that exchanges part by part leave what exchanges of whole files would have left: after the same history of takes
/// and of exchanges, which end with all that the other site has, a folder holds what one file would.
pub fn exchanges_by_windows_are_whole()
    ensures exchanged { (unit : Unit) (theirs old new : Folder) (t s : Contents) → IsFolderOf unit theirs t → IsFolderOf unit old s
        → ((k : Text) → IsExchanged (theirs k) (old k) (new k)) → IsFolderOf unit new (set.union t s) }
    ensures folder { (unit : Unit) (h : History) (at : Folder) → IsFolderAfter unit h at → IsFolderOf unit at (arrived h) }
    ensures file { (h : History) (files : Files) → AreFilesAfter h files → brought_by files ≡ arrived h }
    // So the log, the list of conflicts and the file of the one are those of the other, byte for byte.
    ensures told { (unit : Unit) (h : History) (at : Folder) (files : Files) (keys : List Text) (a b : ReplicaModel) → IsFolderAfter unit h at
        → AreFilesAfter h files → HasParts unit keys (arrived h) → IsExchange (Joined None (all_files at keys)) → AreExact (all_files at keys)
        → IsExchange (Joined None files) → AreExact files → first_log (all_files at keys) ≡ first_log files
        → IsResult (Joined None (all_files at keys)) a → IsResult (Joined None files) b → HaveSameOutput a b }
{}
