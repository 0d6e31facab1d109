ghost use Rattle.std.specs.Prelude.{◌≡◌, ℕ, List as Seq, Option, Some, Ok, Err};
ghost use Rattle.cnf_form.specs.Limits.{most_vars};
ghost use Rattle.cov_base.specs.Bytes.{Appends, BreaksOff};
ghost use Rattle.cov_base.specs.Files.{Files, OnlyMissingRose, OnlyReadsRose};
ghost use Rattle.cov_station.specs.Chains.{Answers, Chain, IsReady};
ghost use Rattle.cov_station.specs.Commands.{station};
ghost use Rattle.cov_station.specs.Files.{Counted};
ghost use Rattle.cov_station.specs.Laws.{Agree, HasOneRunText, HasOneScoreText, HoldsUnsatisfiable, IsReadFault};
ghost use Rattle.cov_station.specs.Outcomes.{Answer, Outside, Ends, IsRefusal, text};
ghost use Rattle.cov_station.specs.Refusals.{line_of, status_of};
ghost use Rattle.cov_station.specs.declared.limits.TheConstants.{MOST_FILE_BYTES};
ghost use Rattle.cov_station.specs.declared.refusal.Refusal.{Refusal as Why};
ghost use Rattle.cov_station.specs.declared.status.Status.{Status as End};
ghost use Rattle.cov_words.specs.Jobs.{Asked, meaning};
ghost use Rattle.cov_words.specs.declared.job.Verb.TheVariants as Verb;
ghost use Rattle.cov_words.specs.declared.limits.TheConstants as words;
ghost use Rattle.dep_paths.specs.declared.limits.TheConstants.{MOST_LENGTH, MOST_OBLIGATIONS};
ghost use Rattle.dep_paths.specs.declared.limits.TheConstants.{MOST_PATHS};
ghost use Rattle.lus_syntax.specs.declared.limits.TheConstants.{MOST_BYTES, MOST_COUNTED};
ghost use Rattle.node_expand.specs.declared.limits.TheConstants.{MOST_DEPTH};
ghost use Rattle.op_network.specs.declared.limits.TheConstants.{LEAST_WIDTH, MOST_EDGES};
ghost use Rattle.op_network.specs.declared.limits.TheConstants.{MOST_NAMES, MOST_WIDTH};
ghost use Rattle.suite_file.specs.declared.limits.TheConstants.{MOST_INSTANTS, MOST_NAME};
ghost use Rattle.suite_file.specs.declared.limits.TheConstants.{MOST_TESTS};

/// The words and the files determine the answer, but for reads that fail, and where the files are
/// ready nothing else is refused. So two calls that are done put the same bytes. Does nothing: its
/// clauses are the law.
pub fn one_answer()
    ensures answer { (words : Seq (Seq ℕ)) (told : Files) (a b : Answer) →
        Answers (station words (Some told)) a → Answers (station words (Some told)) b →
        Agree a b }
    ensures ready { (words : Seq (Seq ℕ)) (told : Files) (why : Why) →
        IsReady (station words (Some told)) → Answers (station words (Some told)) (Err why) →
        IsReadFault why }
    ensures done { (words : Seq (Seq ℕ)) (told : Files) (old new old' new' : Outside) →
        Ends (station words (Some told)) old new End.Done →
        Ends (station words (Some told)) old' new' End.Done →
        (out : Seq ℕ) × Appends old.written out new.written
        × Appends old'.written out new'.written }
{}

/// What `run` prints is determined by the source and the tests. Does nothing: its clause is the
/// law.
pub fn one_run()
    ensures { HasOneRunText }
{}

/// What `score` prints is determined by the source, the plan and the tests. Does nothing: its
/// clause is the law.
pub fn one_score()
    ensures { HasOneScoreText }
{}

/// Where `verify` is done no assignment satisfies the formula that its first file holds. Does
/// nothing: its clause is the law.
pub fn verify_means()
    ensures { (words : Seq (Seq ℕ)) (files : Option Files) (old new : Outside) (job : Asked) →
        meaning words ≡ Some job → job.verb ≡ Verb.Verify →
        Ends (station words files) old new End.Done → HoldsUnsatisfiable files job.first }
{}

/// What each status says of the words' command. Does nothing: its clauses are the law.
pub fn by_status()
    ensures done { (words : Seq (Seq ℕ)) (files : Option Files) (old new : Outside) →
        Ends (station words files) old new End.Done →
        (out : Seq ℕ) × Answers (station words files) (Ok out)
        × Appends old.written out new.written
        × (new.counts ≡ old.counts) × (new.faults ≡ old.faults) }
    ensures refused { (words : Seq (Seq ℕ)) (files : Option Files) (old new : Outside) →
        (end : End) → Ends (station words files) old new end → IsRefusal end →
        (why : Why) × Answers (station words files) (Err why) × (end ≡ status_of why)
        × Appends old.written (line_of why) new.written
        × Counted {A = Seq ℕ} (Err why) old.counts new.counts
        × (new.faults ≡ old.faults) }
    ensures read_fault { (words : Seq (Seq ℕ)) (files : Option Files) (old new : Outside) →
        Ends (station words files) old new End.ReadFault →
        (name : Seq ℕ) × Answers (station words files) (Err (Why.CannotRead name))
        × Appends old.written (line_of (Why.CannotRead name)) new.written
        × OnlyReadsRose old.counts new.counts × (new.faults ≡ old.faults) }
    ensures write_fault { (words : Seq (Seq ℕ)) (files : Option Files) (old new : Outside) →
        Ends (station words files) old new End.WriteFault →
        (a : Answer) × Answers (station words files) a × Counted a old.counts new.counts
        × BreaksOff old.written new.written old.faults new.faults (text a) }
    ensures memory { (words : Seq (Seq ℕ)) (files : Option Files) (old new : Outside) →
        Ends (station words files) old new End.Memory →
        (new.written ≡ old.written) × (new.faults ≡ old.faults) }
{}

/// The limits of a command, as numbers. Does nothing: its clauses are the law.
pub fn numbers_of_limits()
    ensures source_bytes { MOST_BYTES ≡ 1048576 }
    ensures file_bytes { MOST_FILE_BYTES ≡ 268435456 }
    ensures operators { MOST_COUNTED ≡ 500 }
    ensures calls { MOST_DEPTH ≡ 100 }
    ensures edges { MOST_EDGES ≡ 8192 }
    ensures paths { MOST_PATHS ≡ 20000 }
    ensures obligations { MOST_OBLIGATIONS ≡ 200000 }
    ensures tests { MOST_TESTS ≡ 210000 }
    ensures instants { MOST_INSTANTS ≡ 7400000 }
    ensures variables { most_vars ≡ 2000000 }
    ensures path_edges { MOST_LENGTH ≡ 64 }
    ensures narrowest { LEAST_WIDTH ≡ 2 }
    ensures widest { MOST_WIDTH ≡ 32 }
    ensures enumerators { MOST_NAMES ≡ 256 }
    ensures name { MOST_NAME ≡ 64 }
{}

/// The ranges of the numbers among the words, and what they are where they aren't given. Does
/// nothing: its clauses are the law.
pub fn numbers_of_words()
    ensures widths { (words.LEAST_WIDTH ≡ 2) × (words.MOST_WIDTH ≡ 32) }
    ensures width { words.DEFAULT_WIDTH ≡ 32 }
    ensures lengths { (words.LEAST_LENGTH ≡ 1) × (words.MOST_LENGTH ≡ 64) }
    ensures length { words.DEFAULT_LENGTH ≡ 10 }
    ensures instants { (words.LEAST_K ≡ 1) × (words.MOST_K ≡ 32) }
    ensures k { words.DEFAULT_K ≡ 8 }
    ensures budgets { words.MOST_BUDGET ≡ 100000 }
    ensures budget { words.DEFAULT_BUDGET ≡ 20000 }
    ensures least { words.LEAST_NUMBER ≡ 1 }
    ensures obligation { words.MOST_OBLIGATION ≡ 4294967295 }
    ensures size { words.MOST_SIZE ≡ 1000 }
{}
