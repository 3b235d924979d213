//! The laws of the chase. Each is a function with an empty body, whose contract holds of all lists and speaks of the
//! definitions alone: of entity variables, wildcards, constants, folded values and recursion alike.

ghost use Rattle.std.specs.Prelude.{List, [], ◌∷◌, ◌++◌, ℕ, Bool, IsTrue, ◌||◌, ◌&&◌, ◌≡◌, ◌≢◌, ◌↔◌, ◌<◌, ◌≤◌, All, Contains, Some, length, slice_get, slice_index};
ghost use Rattle.std.specs.Cmp.{IsEquivalence};
ghost use Rattle.chase_laws.specs.declared.entry.Entry.{Entry};
ghost use Rattle.chase_laws.specs.declared.pattern.Slot.TheVariants.{Entity};
ghost use Rattle.chase_laws.specs.Shape.{Shape, IsPattern, PatternFacts, Walk, IsConnected, AllWithin, reached};
ghost use Rattle.chase_laws.specs.Graph.{NumberedGraph, IsEntity, IsGraph};
ghost use Rattle.chase_laws.specs.SameRows.{HasRowsOf};
ghost use Rattle.chase_laws.specs.Valuation.{IsValuation, Designates, Coincide, Matches};
ghost use Rattle.chase_laws.specs.Joined.{joined, joined_by, Joined, LabelsJoin};
ghost use Rattle.chase_laws.specs.Chase.{IsStep, IsDerivation, IsLean, AreSame, IsClosed, IsAble};
ghost use Rattle.chase_laws.specs.Candidate.{IsCandidate};
ghost use Rattle.chase_laws.specs.Pairing.{ArePaired, ArePairedBy};
ghost use Rattle.chase_laws.specs.Near.{IsNear};
ghost use Rattle.chase_laws.specs.View.{label_in, same_by};
ghost use Rattle.chase_laws.specs.Signature.{values_of, signature, ShareSignature, LabelsAll, IsCoarser, AreSettled, SignatureParts, ListsShared, AreListedSettled};

/// What pairs join is the least equivalence that has them, and more pairs join more. The pair at the end counts as the one
/// at the front does.
pub fn law_joined()
    ensures has { (ps : List (ℕ × ℕ)) (a b : ℕ) → Contains ps (a, b) → IsTrue (joined ps a b) }
    ensures least { (ps : List (ℕ × ℕ)) (same : ℕ → ℕ → Bool) → IsEquivalence same →
        ((a b : ℕ) → Contains ps (a, b) → IsTrue (same a b)) → (a b : ℕ) → IsTrue (joined ps a b) → IsTrue (same a b) }
    ensures reflexive { (ps : List (ℕ × ℕ)) (a : ℕ) → IsTrue (joined ps a a) }
    ensures symmetric { (ps : List (ℕ × ℕ)) (a b : ℕ) → IsTrue (joined ps a b) → IsTrue (joined ps b a) }
    ensures transitive { (ps : List (ℕ × ℕ)) (a b c : ℕ) → IsTrue (joined ps a b) → IsTrue (joined ps b c) → IsTrue (joined ps a c) }
    ensures last { (ps : List (ℕ × ℕ)) (c d a b : ℕ) →
        joined (ps ++ (c, d) ∷ []) a b ≡ (joined ps a b || (joined ps a c && joined ps d b) || (joined ps a d && joined ps c b)) }
    ensures grows { (ps more : List (ℕ × ℕ)) (a b : ℕ) → IsTrue (joined ps a b) → IsTrue (joined (ps ++ more) a b) }
{}

/// A step stays a step from each list of entries that joins all that the first one joins.
pub fn law_step_grows()
    ensures { (G : NumberedGraph) (K : List Shape) (H J : List Entry) (e : Entry) → IsStep G K H e →
        ((a b : ℕ) → Joined H a b → Joined J a b) → IsStep G K J e }
{}

/// Two closed derivations over the same graph and keys join the same names: the order of the steps is of no account.
pub fn law_confluence()
    ensures { (G : NumberedGraph) (K : List Shape) (H J : List Entry) → IsDerivation G K H → IsClosed G K H →
        IsDerivation G K J → IsClosed G K J → (a b : ℕ) → Joined H a b ↔ Joined J a b }
{}

/// A closed derivation joins exactly what is the same.
pub fn law_chase()
    ensures { (G : NumberedGraph) (K : List Shape) (H : List Entry) → IsDerivation G K H → IsClosed G K H →
        (a b : ℕ) → AreSame G K a b ↔ Joined H a b }
{}

/// No step goes beyond what is the same. Let a sameness of names make only such names the same as are: then what some key
/// identifies up to it is the same. So no step applies to the classes of a report.
pub fn law_same()
    ensures { (G : NumberedGraph) (K : List Shape) (same : ℕ → ℕ → Bool) → ((m n : ℕ) → IsTrue (same m n) → AreSame G K m n) →
        (a b : ℕ) → Matches G K same a b → AreSame G K a b }
{}

/// Every able pair is a candidate pair.
pub fn law_able()
    ensures { (G : NumberedGraph) (K : List Shape) (a b : ℕ) → IsAble G K a b → IsCandidate G K a b }
{}

/// Some key pairs every able pair, to whatever depth, and one key does so to all depths.
pub fn law_paired()
    ensures paired { (G : NumberedGraph) (K : List Shape) (a b : ℕ) → IsAble G K a b → (depth : ℕ) → ArePairedBy G K depth a b }
    ensures one_key { (G : NumberedGraph) (K : List Shape) (a b : ℕ) → IsAble G K a b →
        (key : ℕ) × (Q : Shape) × (slice_get K key ≡ Some Q) × Designates G Q a × Designates G Q b
        × ((depth : ℕ) → ArePaired G Q depth 0 a b) }
{}

/// A key looks at nothing that is not near. The image of each entity variable is near to the entity at slot 0, and two
/// lists of pairs that join the same near names let keys identify the same.
pub fn law_local()
    ensures images { (G : NumberedGraph) (K : List Shape) → All IsPattern K → (key : ℕ) (Q : Shape) (v : List ℕ) (s t : ℕ) →
        slice_get K key ≡ Some Q → IsValuation G Q v → slice_get Q.slots s ≡ Some (Entity t) →
        IsNear G K (slice_index v 0) (slice_index v s) }
    ensures same { (G : NumberedGraph) (K : List Shape) → All IsPattern K → (H J : List (ℕ × ℕ)) (a b : ℕ) →
        ((m n : ℕ) → IsNear G K a m → IsNear G K b n → joined H m n ≡ joined J m n) →
        Matches G K (joined H) a b ↔ Matches G K (joined J) a b }
{}

/// More rows, more derivations. Let F have all rows of G, and be else equal: then a derivation over G is one over F (a lean
/// one stays lean, since that speaks of no graph), and able and candidate pairs stay so. Where G has all rows of F too,
/// the same entries are closed, the same names are the same, and the candidates are the same: the rows of a graph are a
/// set. What names are alike to is of no account to keys with no folded value variable.
pub fn law_rows()
    ensures derivation { (G F : NumberedGraph) (K : List Shape) → HasRowsOf K G F → (H : List Entry) → IsDerivation G K H → IsDerivation F K H }
    ensures able { (G F : NumberedGraph) (K : List Shape) → HasRowsOf K G F → (a b : ℕ) → IsAble G K a b → IsAble F K a b }
    ensures candidate { (G F : NumberedGraph) (K : List Shape) → HasRowsOf K G F → (a b : ℕ) → IsCandidate G K a b → IsCandidate F K a b }
    ensures closed { (G F : NumberedGraph) (K : List Shape) → HasRowsOf K G F → HasRowsOf K F G → (H : List Entry) → IsClosed G K H ↔ IsClosed F K H }
    ensures same { (G F : NumberedGraph) (K : List Shape) → HasRowsOf K G F → HasRowsOf K F G → (a b : ℕ) → AreSame G K a b ↔ AreSame F K a b }
    ensures candidates { (G F : NumberedGraph) (K : List Shape) → HasRowsOf K G F → HasRowsOf K F G → (a b : ℕ) → IsCandidate G K a b ↔ IsCandidate F K a b }
{}

/// Two different names that are the same are both entities, and so no literals.
pub fn law_entities()
    ensures { (G : NumberedGraph) (K : List Shape) → All IsPattern K → (a b : ℕ) → AreSame G K a b → a ≢ b → IsEntity G a × IsEntity G b }
{}

/// Where each label of a view is joined with its name, the view makes only joined names the same. So what is found under
/// labels of whatever moments is a step of the present journal.
pub fn law_view()
    ensures { (H : List Entry) (view : List (ℕ × ℕ)) → ((n l : ℕ) → label_in view n ≡ Some l → Joined H n l) →
        (m n : ℕ) → IsTrue (same_by view m n) → Joined H m n }
{}

/// The law of signatures. Let labels be equal exactly where entries join: then two valuations of a pattern coincide up to
/// what the entries join exactly if they have one signature, and a key identifies two names exactly if some pattern has a
/// valuation at each of them, with one signature. Valuations whose values differ coincide up to no sameness. Under coarser
/// labels equal signatures stay equal.
pub fn law_signature()
    ensures coincide { (G : NumberedGraph) → IsGraph G → (labels : List ℕ) (H : List Entry) → LabelsAll G labels → LabelsJoin labels H →
        (Q : Shape) (v w : List ℕ) → IsValuation G Q v → IsValuation G Q w →
        Coincide G Q (joined_by H) v w ↔ (signature G Q labels v ≡ signature G Q labels w) }
    ensures matches { (G : NumberedGraph) (K : List Shape) → IsGraph G → (labels : List ℕ) (H : List Entry) → LabelsAll G labels → LabelsJoin labels H →
        (a b : ℕ) → Matches G K (joined_by H) a b ↔ ShareSignature G K labels a b }
    ensures values { (G : NumberedGraph) (Q : Shape) (same : ℕ → ℕ → Bool) (v w : List ℕ) → Coincide G Q same v w → values_of G Q v ≡ values_of G Q w }
    ensures coarser { (G : NumberedGraph) → IsGraph G → (labels labels' : List ℕ) → LabelsAll G labels → IsCoarser labels labels' →
        (Q : Shape) (v w : List ℕ) → IsValuation G Q v → IsValuation G Q w →
        signature G Q labels v ≡ signature G Q labels w → signature G Q labels' v ≡ signature G Q labels' w }

    // An entry of two valuations of one signature is a step, and where any two such are at names of one label, no step
    // goes further. So a derivation with such labels joins exactly what is the same.
    ensures step { (G : NumberedGraph) (K : List Shape) → IsGraph G → (labels : List ℕ) (H : List Entry) → LabelsAll G labels → LabelsJoin labels H →
        (Q : Shape) (e : Entry) → slice_get K e.key ≡ Some Q → IsValuation G Q e.left → IsValuation G Q e.right →
        slice_index e.left 0 ≡ e.a → slice_index e.right 0 ≡ e.b → signature G Q labels e.left ≡ signature G Q labels e.right → IsStep G K H e }
    ensures closed { (G : NumberedGraph) (K : List Shape) → IsGraph G → All IsPattern K → (labels : List ℕ) (H : List Entry) → LabelsAll G labels →
        LabelsJoin labels H → AreSettled G K labels ↔ IsClosed G K H }
    ensures same { (G : NumberedGraph) (K : List Shape) → IsGraph G → All IsPattern K → (labels : List ℕ) (H : List Entry) → LabelsAll G labels →
        LabelsJoin labels H → IsDerivation G K H → AreSettled G K labels → (a b : ℕ) → AreSame G K a b ↔ Joined H a b }
{}

/// Of all valuations only those matter whose values another name has, too, and of those only one for each of their parts:
/// where such a list is settled, all valuations are.
pub fn law_listed()
    ensures { (G : NumberedGraph) (K : List Shape) (listed : List SignatureParts) → ListsShared G K listed → (labels : List ℕ) →
        AreListedSettled labels listed → AreSettled G K labels }
{}

/// What the test of a valid pattern says. What walks of at most n edges reach is what the test computes, and what any walk
/// reaches is reached within as many edges as there are slots.
pub fn law_pattern()
    ensures facts { (Q : Shape) → IsPattern Q → PatternFacts Q }
    ensures reached { (Q : Shape) (n s : ℕ) → IsTrue (reached Q n s) ↔ ((m : ℕ) × (m ≤ n) × Walk Q m s) }
    ensures enough { (Q : Shape) (n s : ℕ) → Walk Q n s → IsTrue (reached Q (length Q.slots) s) }
    ensures connected { (Q : Shape) → IsConnected Q ↔ AllWithin Q (length Q.slots) }
{}
