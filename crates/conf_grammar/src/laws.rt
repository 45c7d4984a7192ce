ghost use Rattle.conf_grammar.specs.Laws.{AllowedStands, BeginsNoTree, BeginsTree, CanGoOn, OneTree, ReadsTree, RefusedCannot, TextReads, TreeReads};

/// Nothing is done: the contract is the law that each text of the grammar is taken.
///
/// The tokens of a tree are taken one after another, at the start of a text and within any section,
/// and what they make whole is what the tree says. A text of the grammar may end where it does.
#[tactic(auto, using(crate::proofs::TextsRead::tree_reads, crate::proofs::Standing::text_reads))]
pub fn trees_are_taken()
    ensures items { TreeReads }
    ensures text { TextReads }
{}

/// Nothing is done: the contract is the law that each text which is taken is one of the grammar.
///
/// Where the tokens of a text are taken one after another and it may end behind them, a tree spells
/// them, and what they make whole is what the tree says.
#[tactic(auto, using(crate::proofs::TreesFound::reads_tree))]
pub fn taken_texts_are_trees()
    ensures { ReadsTree }
{}

/// Nothing is done: the contract is the law that the grammar isn't ambiguous.
///
/// Two trees that spell the same tokens are one.
#[tactic(auto, using(crate::proofs::OneTree::one_tree))]
pub fn texts_have_one_tree()
    ensures { OneTree }
{}

/// Nothing is done: the contract is the law that a text can be completed.
///
/// From each state of a parser there are tokens that end the item at hand and the sections around it.
#[tactic(auto, using(crate::proofs::Standing::can_go_on))]
pub fn texts_can_go_on()
    ensures { CanGoOn }
{}

/// Nothing is done: the contract is the law of the first token that can't be taken.
///
/// Tokens that are taken begin a text of the grammar, and tokens of which one can't be begin none. So
/// the first token that isn't taken is the first one with which no text of the grammar goes on.
#[tactic(auto, using(crate::proofs::TreesFound::begins_tree, crate::proofs::Standing::begins_no_tree))]
pub fn first_that_cannot_stand()
    ensures taken { BeginsTree }
    ensures refused { BeginsNoTree }
{}

/// Nothing is done: the contract is the law of the kinds of tokens that are allowed.
///
/// Behind tokens that are taken, a kind is allowed exactly where a text of the grammar goes on with a
/// token of that kind, whatever its value.
#[tactic(auto, using(crate::proofs::KindsStand::refused_cannot))]
pub fn kinds_that_stand()
    ensures allowed { AllowedStands }
    ensures refused { RefusedCannot }
{}
