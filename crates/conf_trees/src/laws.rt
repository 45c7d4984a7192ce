ghost use Rattle.conf_trees.specs.Laws.{AddsItems, HasTree, MeetsOne, RefusesEnd, RefusesToken, RefusesUnset, SaidTexts, SaysOnce, TextStands, TextsSay, TreeStands, WalksTree};

/// Nothing is done: the contract is the law that a text is read as its tree.
///
/// Where the tokens of a text have values and a tree spells them, the walk of the tokens is the walk
/// of the tree, from anything that was read before, and with the same refusal where the walk of a
/// text that is included refuses. And each text whose walk doesn't refuse is such a text.
#[tactic(auto, using(crate::proofs::TreesWalked::walks_tree, crate::proofs::TreesFound::has_tree))]
pub fn texts_walk_as_trees()
    ensures walks { WalksTree }
    ensures tree { HasTree }
{}

/// Nothing is done: the contract is the law of what a tree without includes says.
///
/// Its walk adds its items to those at the top: each option, and each section with the list of its
/// items and the sections inside. In these lists a section stands as its word without a value, and of
/// one that is deeper than two nothing else is kept.
#[tactic(auto, using(crate::proofs::ItemsSaid::adds_items))]
pub fn trees_say_their_items()
    ensures { AddsItems }
{}

/// Nothing is done: the contract is the law of the texts whose walk refuses.
///
/// Each text is one of four: its tokens have values and a tree spells them; they have, and only begin
/// a text of the grammar; or there is a first token with which no text of the grammar goes on, whatever
/// that token's value; or a first token that lacks a value. Where each text that is included is read,
/// the walk refuses the second at the text's length, the third at the token, and the fourth by the
/// variable.
#[tactic(auto, using(crate::proofs::Refusing::refuses_end))]
pub fn other_texts_are_refused()
    ensures meets { MeetsOne }
    ensures token { RefusesToken }
    ensures unset { RefusesUnset }
    ensures end { RefusesEnd }
{}

/// Nothing is done: the contract is the law that an include stands for the items of its text.
///
/// What is read of a tree is what one reads of the tree in which the items of each text stand in the
/// place of its include, in whatever section that is, and so on within these texts. A word keeps the
/// place at which it stands in its own text, under the number which that has in the order of reading.
/// That is one tree: no text says two things.
#[tactic(auto, using(crate::proofs::TextsSaid::text_stands, crate::proofs::TextsSaid::tree_stands, crate::proofs::SaidOnce::says_once))]
pub fn includes_stand_for_their_texts()
    ensures text { TextStands }
    ensures tree { TreeStands }
    ensures once { SaysOnce }
{}

/// Nothing is done: the contract is the law of what the texts of a configuration say.
///
/// They say the items of one tree without includes: that of the main text, with the items of each
/// text in the place of its include. Where the reading doesn't refuse, that tree is there, and the
/// texts that it stands for are those that were read, in this order. Where it is there, with no text
/// nested too deep, and the texts aren't too long in all, the reading says it.
#[tactic(auto, using(crate::proofs::TextsSaid::texts_say, crate::proofs::TextsSaid::said_texts))]
pub fn texts_say_a_tree()
    ensures read { TextsSay }
    ensures said { SaidTexts }
{}
