//! The laws. The functions do nothing: each has a law as its contract.

ghost use Rattle.chain_laws.specs.Laws.{OtherLinksLeaveChain, PushPutsInFront, LostPushChangesNothing};
ghost use Rattle.chain_laws.specs.Laws.{OtherPushesStand};
ghost use Rattle.chain_laws.specs.Laws.{SwapGivesWholeChain, FrontComesOff, LinkJoinsChains, WalkerSplitsChain};
ghost use Rattle.chain_laws.specs.Laws.{HeadsHaveOneList, WalkGivesList, ListsBelowAreShort, FreshChainsAreEmpty};
ghost use Rattle.chain_laws.specs.Laws.{ChainsHaveNoRepeats, SeatsPushInFront, NamedChainStands};
ghost use Rattle.chain_laws.specs.Wrong.{StalePushesAreWrong, TakingsByLoadAreWrong, LooseChainsAreWrong};
ghost use Rattle.chain_laws.specs.Wrong.{AnyLinksAreWrong};
ghost use Rattle.chain_laws.specs.Wrong.{PushesOfMembersAreWrong};

/// A chain stays as it is where the link of an item is written that is none of its own.
pub fn other_links_leave_chain()
    ensures { OtherLinksLeaveChain }
{}

/// Each step of a push leaves the chain as it is, or puts the item in front of it, whatever others pushed and took
/// before.
pub fn push_puts_in_front()
    ensures { PushPutsInFront }
{}

/// An exchange that is lost writes nothing, and the item is linked to what was found.
pub fn lost_push_changes_nothing()
    ensures { LostPushChangesNothing }
{}

/// What a push rests on stands through the steps of other pushes, and where the chain is taken.
pub fn other_pushes_stand()
    ensures { OtherPushesStand }
{}

/// A swap of the head for an end gives the whole chain, and leaves an empty one.
pub fn swap_gives_whole_chain()
    ensures { SwapGivesWholeChain }
{}

/// The link of a chain's first item leads through the others.
pub fn front_comes_off()
    ensures { FrontComesOff }
{}

/// An item of a chain that is linked to another chain ends before that chain.
pub fn link_joins_chains()
    ensures { LinkJoinsChains }
{}

/// A walker at an item of a chain has the one part behind him and the other before him.
pub fn walker_splits_chain()
    ensures { WalkerSplitsChain }
{}

/// One head leads through one list, to one end.
pub fn heads_have_one_list()
    ensures { HeadsHaveOneList }
{}

/// A chain leads to no item twice.
pub fn chains_have_no_repeats()
    ensures { ChainsHaveNoRepeats }
{}

/// A walk with as much fuel as there are items finds the items.
pub fn walk_gives_list()
    ensures { WalkGivesList }
{}

/// A list without repeats, all of it below a number, is at most so long.
pub fn lists_below_are_short()
    ensures { ListsBelowAreShort }
{}

/// In any run of any number of seats the chain has what was pushed since it was taken.
pub fn seats_push_in_front()
    ensures { SeatsPushInFront }
{}

/// In a new pool chains are empty, and nobody pushes.
pub fn fresh_chains_are_empty()
    ensures { FreshChainsAreEmpty }
{}

/// A queue of two blocks and a push on its way to it meet every part.
pub fn named_chain_stands()
    ensures { NamedChainStands }
{}

/// A push that is tried again with the item linked to the old head is wrong.
pub fn stale_pushes_are_wrong()
    ensures { StalePushesAreWrong }
{}

/// A load of the head takes no chain.
pub fn takings_by_load_are_wrong()
    ensures { TakingsByLoadAreWrong }
{}

/// Chains that may end anywhere have more than one list.
pub fn loose_chains_are_wrong()
    ensures { LooseChainsAreWrong }
{}

/// A chain does not stay where a link of its own is written.
pub fn any_links_are_wrong()
    ensures { AnyLinksAreWrong }
{}

/// An item of the chain cannot be put in front of it.
pub fn pushes_of_members_are_wrong()
    ensures { PushesOfMembersAreWrong }
{}
