//! What an accepted proof is. The function does nothing: its contract is the law.

ghost use Rattle.std.specs.Prelude.{List, ℕ, ◌≡◌, map, length};
ghost use Rattle.gk_base.specs.declared.term.Triple.{Triple};
ghost use Rattle.chase_laws.specs.declared.entry.Entry.{Entry};
ghost use Rattle.chase_laws.specs.Joined.{Joined};
ghost use Rattle.chase_laws.specs.Chase.{IsDerivation, AreSame};
ghost use Rattle.key_file.specs.KeyShape.{KeyShape};
ghost use Rattle.key_file.specs.KeyFile.{IsKeyFile};
ghost use Rattle.key_file.specs.Compile.{patterns_of};
ghost use Rattle.key_file.specs.Numbered.{names_for, graph_of};
ghost use Rattle.proof_file.specs.Steps.{StepShape};
ghost use Rattle.proof_file.specs.Tells.{TellsAll};
ghost use Rattle.proof_check.specs.StepEntries.{step_entries};
ghost use Rattle.proof_check.specs.Verdict.{verdict};
ghost use Rattle.proof_check.specs.declared.verdict.Verdict.TheVariants.{Accepted};

/// Proofs that are accepted, and derivations.
pub fn law_proof()
    // Where a proof is accepted, it is with the number of its steps.
    ensures count { (triples : List Triple) (keys : List KeyShape) (steps : List StepShape) (count : ℕ) →
        verdict triples keys steps ≡ Accepted count → count ≡ length steps }

    // The steps of an accepted proof, in numbers, are a derivation.
    ensures derivation { (triples : List Triple) (keys : List KeyShape) (steps : List StepShape) (count : ℕ) →
        IsKeyFile keys → verdict triples keys steps ≡ Accepted count →
        IsDerivation (graph_of (names_for triples keys) triples) (patterns_of (names_for triples keys) keys)
        (step_entries (names_for triples keys) keys steps) }

    // So all that they join is the same.
    ensures same { (triples : List Triple) (keys : List KeyShape) (steps : List StepShape) (count : ℕ) →
        IsKeyFile keys → verdict triples keys steps ≡ Accepted count → (a b : ℕ) →
        Joined (step_entries (names_for triples keys) keys steps) a b →
        AreSame (graph_of (names_for triples keys) triples) (patterns_of (names_for triples keys) keys) a b }

    // A proof that tells the entries of a derivation, each with supports that lead, is accepted.
    ensures accepted { (triples : List Triple) (keys : List KeyShape) (H : List Entry) (steps : List StepShape) →
        IsKeyFile keys →
        IsDerivation (graph_of (names_for triples keys) triples) (patterns_of (names_for triples keys) keys) H →
        TellsAll (names_for triples keys) (patterns_of (names_for triples keys) keys) (map (λ (k : KeyShape). k.name) keys) H steps →
        verdict triples keys steps ≡ Accepted (length steps) }
{}
