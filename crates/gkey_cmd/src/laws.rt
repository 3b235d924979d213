//! What holds of the answers to a command. The function does nothing: its contract is the law.

ghost use Rattle.std.specs.Prelude.{◌≡◌, ℕ, List, Some};
ghost use Rattle.gk_base.specs.declared.limits.Limits.{Limits};
ghost use Rattle.gk_base.specs.declared.term.Triple.{Triple};
ghost use Rattle.key_file.specs.KeyShape.{KeyShape};
ghost use Rattle.gkey_cmd.specs.Commands.{Wanted};
ghost use Rattle.gkey_cmd.specs.Reading.{NamedFiles};
ghost use Rattle.gkey_cmd.specs.Match.{IsReport};
ghost use Rattle.gkey_cmd.specs.Merge.{IsMergedOutput};
ghost use Rattle.gkey_cmd.specs.Demo.{IsDemoText};
ghost use Rattle.gkey_cmd.specs.Written.{HasOneOutput, IsAnswered, WritesFor};
ghost use Rattle.gkey_cmd.specs.declared.ending.Answer.{Answer};

/// A command that is neither `prove` nor `why` has one output: whatever meets the contract of a run prints the same bytes for the
/// same files and limits, with any number of workers and in any order of their turns, and its status and error text are one, too.
/// `prove` and `why` have one answer, but of proofs there may be several. The law speaks of what goes with the files
/// (`WritesFor`): a device that fails, want of memory, and words that ask for no command are no part of it.
pub fn law_one_output()
    // There is one report of triples and keys, one merged graph, and one line of a demo.
    ensures report { (triples : List Triple) (keys : List KeyShape) (first second : List ℕ) →
        IsReport triples keys first → IsReport triples keys second → first ≡ second }
    ensures merged { (triples : List Triple) (keys : List KeyShape) (first second : List ℕ) →
        IsMergedOutput triples keys first → IsMergedOutput triples keys second → first ≡ second }
    ensures demo { (triples : List Triple) (keys : List KeyShape) (first second : List ℕ) →
        IsDemoText triples keys first → IsDemoText triples keys second → first ≡ second }

    // A command has one answer for its files and limits.
    ensures answer { (command : Wanted) (files : NamedFiles) (limits : Limits) (answer other : Answer) (output more : List ℕ) →
        IsAnswered (Some command) files limits answer output → IsAnswered (Some command) files limits other more → answer ≡ other }

    // It has one output, if it is neither `prove` nor `why`, and all that a run of it writes is one.
    ensures answered { (command : Wanted) (files : NamedFiles) (limits : Limits) (answer other : Answer) (output more : List ℕ) →
        HasOneOutput command → IsAnswered (Some command) files limits answer output → IsAnswered (Some command) files limits other more →
        (answer ≡ other) × (output ≡ more) }
    ensures written { (command : Wanted) (files : NamedFiles) (limits : Limits) (status other : ℕ) (output more error text : List ℕ) →
        HasOneOutput command → WritesFor (Some command) files limits status output error → WritesFor (Some command) files limits other more text →
        (status ≡ other) × (output ≡ more) × (error ≡ text) }
{}
