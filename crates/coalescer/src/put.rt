//! Putting a block in hand: it is joined to its free neighbours, and goes into a bin, or into the queue, or is a whole
//! region that is given back.

ghost use Rattle.std.specs.Prelude.{◌≡◌};
ghost use Rattle.coalescer.specs.Put.{put_begins, left_win, right_win, joined_left, joined_right, unlink_call};
ghost use Rattle.coalescer.specs.Put.{insert_call, push_call, put_course, put_learn, goes, bins, queues};
ghost use Rattle.coalescer.specs.Put.{looks_right, judges_left, judges_right, wins_left, wins_right, unlinks_left};
ghost use Rattle.coalescer.specs.Put.{unlinks_right, ends, looks_far, looks_far_right, sees_far_left, sees_far_right};
ghost use Rattle.coalescer.specs.Put.{left_neighbour, right_neighbour, is_walled};

use backend_bins::{BinAt, BinCall, BinJob, BinNext, Block, bin_of};
use chain_words::{PushAt, PushCall, PushNext};
use guards::{Side, Taking, WinAt, WinCall, WinNext};
use pool_words::{Action, Word};
use word_codes::{Guard, QueueLink, link_of, link_word};

/// The seat, whether the block comes from the queue, and whether the pool gives regions back that are free.
#[derive(Clone, Copy)]
pub struct PutCall {
    pub seat: u8,
    pub drained: bool,
    pub gives: bool,
}

/// What was found beside the block.
#[derive(Clone, Copy)]
pub enum Beside {
    Unknown,

    /// The region's end.
    Wall,

    /// A block in use.
    InUse,

    /// A free block, which is a part of the block now.
    Joined,
}

/// The next step of a put. A neighbour that was won is a part of the block in hand, and still in its bin's list.
#[derive(Clone, Copy)]
pub enum PutStep {
    /// The block's own guards say that it is being joined.
    Size,
    Left,

    /// What is before the block.
    LeftWord,
    WinLeft { granules: u64, at: WinAt },
    UnlinkLeft { neighbour: Block, at: BinAt },

    /// What is behind the block.
    RightWord,
    WinRight { granules: u64, at: WinAt },
    UnlinkRight { neighbour: Block, at: BinAt },

    /// Whether the region ends beside what was joined.
    FarLeft,
    FarRight,

    /// The block is pushed onto the queue.
    Queue(PushAt),

    /// The block is put into its bin.
    Bin(BinAt),
}

/// A put: the block in hand, with what was joined to it (coalesced), what was found beside it, and the next step.
#[derive(Clone, Copy)]
pub struct PutAt {
    pub block: Block,
    pub left: Beside,
    pub right: Beside,
    pub step: PutStep,
}

#[derive(Clone, Copy)]
pub enum PutNext {
    Goes(PutAt),

    /// Another has this bin's lock.
    Waits(u64),

    /// The block is in a bin or in the queue.
    Done,

    /// The block is a whole region, and still in hand.
    Gives(Block),
}

impl PutAt {
    /// The put of a block in hand.
    pub fn begins(block: Block) -> PutAt
        ensures { result ≡ put_begins block }
    {
        PutAt {
            block,
            left: Beside::Unknown,
            right: Beside::Unknown,
            step: PutStep::Size,
        }
    }

    /// The block before this one, of so many granules.
    fn left_neighbour(self, granules: u64) -> Block
        ensures { result ≡ left_neighbour self granules }
    {
        Block {
            first: self.block.first.saturating_sub(granules),
            granules,
        }
    }

    /// The block behind this one, of so many granules.
    fn right_neighbour(self, granules: u64) -> Block
        ensures { result ≡ right_neighbour self granules }
    {
        Block {
            first: self.block.end(),
            granules,
        }
    }

    /// Winning the block before this one: the guard between them comes first.
    fn left_win(self, granules: u64) -> WinCall
        ensures { result ≡ left_win self granules }
    {
        WinCall {
            begin: self.block.first.saturating_sub(granules),
            end: self.block.first,
            granules,
            first: Side::End,
            taking: Taking::ToJoin,
        }
    }

    /// Winning the block behind this one: the guard between them comes first.
    fn right_win(self, granules: u64) -> WinCall
        ensures { result ≡ right_win self granules }
    {
        WinCall {
            begin: self.block.end(),
            end: self.block.end().saturating_add(granules),
            granules,
            first: Side::Begin,
            taking: Taking::ToJoin,
        }
    }

    /// The put with the block before this one in hand too.
    fn joined_left(self, granules: u64) -> PutAt
        ensures { result ≡ joined_left self granules }
    {
        PutAt {
            block: Block {
                first: self.block.first.saturating_sub(granules),
                granules: self.block.granules.saturating_add(granules),
            },
            left: Beside::Joined,
            ..self
        }
    }

    /// The put with the block behind this one in hand too.
    fn joined_right(self, granules: u64) -> PutAt
        ensures { result ≡ joined_right self granules }
    {
        PutAt {
            block: Block {
                first: self.block.first,
                granules: self.block.granules.saturating_add(granules),
            },
            right: Beside::Joined,
            ..self
        }
    }

    /// The push of the block onto the queue.
    fn push_call(self, at: PushAt) -> PushCall
        ensures { result ≡ push_call self at }
    {
        PushCall {
            head: Word::Queue,
            link: Word::QueueLink(self.block.first),
            linked: QueueLink {
                next: link_of(at.found()),
                granules: self.block.granules,
            }
            .word(),
            filled: link_word(Some(self.block.first)),
        }
    }

    pub fn next(self, call: PutCall) -> Action
        ensures { result ≡ put_course call self }
    {
        let joining = Guard::Coalescing.word();
        match self.step {
            PutStep::Size => Action::Store(Word::Size(self.block.first), joining),
            PutStep::Left => Action::Store(Word::Left(self.block.end()), joining),
            PutStep::LeftWord => Action::Load(Word::Left(self.block.first)),
            PutStep::WinLeft { granules, at } => at.next(self.left_win(granules)),
            PutStep::UnlinkLeft { neighbour, at } => at.next(call.unlink(neighbour)),
            PutStep::RightWord => Action::Load(Word::Size(self.block.end())),
            PutStep::WinRight { granules, at } => at.next(self.right_win(granules)),
            PutStep::UnlinkRight { neighbour, at } => at.next(call.unlink(neighbour)),
            PutStep::FarLeft => Action::Load(Word::Left(self.block.first)),
            PutStep::FarRight => Action::Load(Word::Size(self.block.end())),
            PutStep::Queue(at) => at.next(self.push_call(at)),
            PutStep::Bin(at) => at.next(call.insert(self.block)),
        }
    }

    /// The put goes on with this step.
    fn goes(self, step: PutStep) -> PutNext
        ensures { result ≡ goes self step }
    {
        PutNext::Goes(PutAt { step, ..self })
    }

    /// The block goes into its bin.
    fn bins(self) -> PutNext
        ensures { result ≡ bins self }
    {
        self.goes(PutStep::Bin(BinAt::Lock))
    }

    /// The block goes into the queue; one that comes from there goes into its bin.
    fn queues(self, call: PutCall) -> PutNext
        ensures { result ≡ queues call self }
    {
        if call.drained {
            self.bins()
        } else {
            self.goes(PutStep::Queue(PushAt::Look))
        }
    }

    /// What is behind the block comes next.
    fn looks_right(self, left: Beside) -> PutNext
        ensures { result ≡ looks_right self left }
    {
        PutNext::Goes(PutAt {
            left,
            step: PutStep::RightWord,
            ..self
        })
    }

    /// What the guard before the block says.
    fn judges_left(self, call: PutCall, guard: Guard) -> PutNext
        ensures { result ≡ judges_left call self guard }
    {
        match guard {
            Guard::Used => self.looks_right(Beside::InUse),
            Guard::Wall => self.looks_right(Beside::Wall),
            Guard::Coalescing => self.queues(call),
            Guard::Free(granules) => self.goes(PutStep::WinLeft {
                granules,
                at: WinAt::First,
            }),
        }
    }

    /// What the guard behind the block says.
    fn judges_right(self, call: PutCall, guard: Guard) -> PutNext
        ensures { result ≡ judges_right call self guard }
    {
        match guard {
            Guard::Used => self.ends(call, Beside::InUse),
            Guard::Wall => self.ends(call, Beside::Wall),
            Guard::Coalescing => self.queues(call),
            Guard::Free(granules) => self.goes(PutStep::WinRight {
                granules,
                at: WinAt::First,
            }),
        }
    }

    /// Winning the block before this one went on.
    fn wins_left(self, call: PutCall, granules: u64, won: WinNext) -> PutNext
        ensures { result ≡ wins_left call self granules won }
    {
        match won {
            WinNext::Goes(at) => self.goes(PutStep::WinLeft { granules, at }),
            WinNext::Won => self.joined_left(granules).goes(PutStep::UnlinkLeft {
                neighbour: self.left_neighbour(granules),
                at: BinAt::Lock,
            }),
            WinNext::NotWon(found) => self.judges_left(call, Guard::of_word(found)),
            WinNext::GivenBack => self.queues(call),
        }
    }

    /// Winning the block behind this one went on.
    fn wins_right(self, call: PutCall, granules: u64, won: WinNext) -> PutNext
        ensures { result ≡ wins_right call self granules won }
    {
        match won {
            WinNext::Goes(at) => self.goes(PutStep::WinRight { granules, at }),
            WinNext::Won => self.joined_right(granules).goes(PutStep::UnlinkRight {
                neighbour: self.right_neighbour(granules),
                at: BinAt::Lock,
            }),
            WinNext::NotWon(found) => self.judges_right(call, Guard::of_word(found)),
            WinNext::GivenBack => self.queues(call),
        }
    }

    /// Taking the block before this one out of its list went on.
    fn unlinks_left(self, neighbour: Block, next: BinNext) -> PutNext
        ensures { result ≡ unlinks_left self neighbour next }
    {
        match next {
            BinNext::Goes(at) => self.goes(PutStep::UnlinkLeft { neighbour, at }),
            BinNext::Waits => PutNext::Waits(bin_of(neighbour.granules)),
            BinNext::Done => self.goes(PutStep::RightWord),
        }
    }

    /// Taking the block behind this one out of its list went on.
    fn unlinks_right(self, call: PutCall, neighbour: Block, next: BinNext) -> PutNext
        ensures { result ≡ unlinks_right call self neighbour next }
    {
        match next {
            BinNext::Goes(at) => self.goes(PutStep::UnlinkRight { neighbour, at }),
            BinNext::Waits => PutNext::Waits(bin_of(neighbour.granules)),
            BinNext::Done => self.ends(call, Beside::Joined),
        }
    }

    /// Whether no block in use was found beside the block.
    fn is_walled(self) -> bool
        ensures { result ≡ is_walled self }
    {
        !matches!(self.left, Beside::InUse) && !matches!(self.right, Beside::InUse)
    }

    /// Both sides are known. Where the block may be a whole region, the ends of what was joined are looked at.
    fn ends(self, call: PutCall, right: Beside) -> PutNext
        ensures { result ≡ ends call self right }
    {
        let known = PutAt { right, ..self };
        if call.gives && known.is_walled() {
            known.looks_far()
        } else {
            known.bins()
        }
    }

    /// The first far look.
    fn looks_far(self) -> PutNext
        ensures { result ≡ looks_far self }
    {
        match self.left {
            Beside::Joined => self.goes(PutStep::FarLeft),
            _ => self.looks_far_right(),
        }
    }

    /// The block begins at a wall.
    fn looks_far_right(self) -> PutNext
        ensures { result ≡ looks_far_right self }
    {
        match self.right {
            Beside::Joined => self.goes(PutStep::FarRight),
            _ => PutNext::Gives(self.block),
        }
    }

    /// What is before the joined block.
    fn sees_far_left(self, guard: Guard) -> PutNext
        ensures { result ≡ sees_far_left self guard }
    {
        match guard {
            Guard::Wall => self.looks_far_right(),
            _ => self.bins(),
        }
    }

    /// What is behind the joined block, which begins at a wall.
    fn sees_far_right(self, guard: Guard) -> PutNext
        ensures { result ≡ sees_far_right self guard }
    {
        match guard {
            Guard::Wall => PutNext::Gives(self.block),
            _ => self.bins(),
        }
    }

    pub fn told(self, call: PutCall, found: u64) -> PutNext
        ensures { result ≡ put_learn call self found }
    {
        match self.step {
            PutStep::Size => self.goes(PutStep::Left),
            PutStep::Left => self.goes(PutStep::LeftWord),
            PutStep::LeftWord => self.judges_left(call, Guard::of_word(found)),
            PutStep::WinLeft { granules, at } => {
                self.wins_left(call, granules, at.told(self.left_win(granules), found))
            }
            PutStep::UnlinkLeft { neighbour, at } => {
                self.unlinks_left(neighbour, at.told(call.unlink(neighbour), found))
            }
            PutStep::RightWord => self.judges_right(call, Guard::of_word(found)),
            PutStep::WinRight { granules, at } => {
                self.wins_right(call, granules, at.told(self.right_win(granules), found))
            }
            PutStep::UnlinkRight { neighbour, at } => {
                self.unlinks_right(call, neighbour, at.told(call.unlink(neighbour), found))
            }
            PutStep::FarLeft => self.sees_far_left(Guard::of_word(found)),
            PutStep::FarRight => self.sees_far_right(Guard::of_word(found)),
            PutStep::Queue(at) => match at.told(found) {
                PushNext::Goes(next) => self.goes(PutStep::Queue(next)),
                PushNext::Pushed { .. } => PutNext::Done,
            },
            PutStep::Bin(at) => match at.told(call.insert(self.block), found) {
                BinNext::Goes(next) => self.goes(PutStep::Bin(next)),
                BinNext::Waits => PutNext::Waits(bin_of(self.block.granules)),
                BinNext::Done => PutNext::Done,
            },
        }
    }
}

impl PutCall {
    /// Taking a neighbour out of its bin.
    fn unlink(self, neighbour: Block) -> BinCall
        ensures { result ≡ unlink_call self neighbour }
    {
        BinCall {
            seat: self.seat,
            block: neighbour,
            job: BinJob::Unlink,
        }
    }

    /// Putting the block into its bin.
    fn insert(self, block: Block) -> BinCall
        ensures { result ≡ insert_call self block }
    {
        BinCall {
            seat: self.seat,
            block,
            job: BinJob::Insert,
        }
    }
}
