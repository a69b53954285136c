//! The kinds of word, and where each word lies in the row.

ghost use Rattle.std.specs.Prelude.{◌≡◌, ◌+◌, ◌≤◌};
ghost use Rattle.pool_words.specs.Words.{words_of, index_of, mailbox_at, placed};

/// What a pool was made with: its number, its seats and its span of granule indices, the least bytes of a region and
/// the multiple of bytes in which regions are asked for, whether it has callbacks that get and free regions, and
/// whether it gets one region alone, or keeps regions until it is destroyed.
#[derive(Clone, Copy, Debug, PartialEq, Eq)]
pub struct Key {
    pub pool: u16,
    pub seats: u8,
    pub span: u32,
    pub region: u64,
    pub granularity: u64,
    pub gets: bool,
    pub frees: bool,
    pub fixed: bool,
    pub keep: bool,
}

/// A word of a pool. Any index is a value of the type: where a kind has no such index, it is no word.
#[derive(Clone, Copy)]
pub enum Word {
    /// The mark of the object that begins in this unit.
    Mark(u64),
    /// What begins at this granule: a slab, or a large object.
    Kind(u64),
    /// Who keeps the slab of this first granule.
    Own(u64),
    /// The objects that others gave back to the slab of this first granule.
    Public(u64),
    /// Where the slab of this first granule is mailed, or the slab behind it in a chain.
    Next(u64),
    /// The record of the slab of this first granule, while nobody keeps it.
    Header(u64),
    /// The guard of the block that begins at this granule.
    Size(u64),
    /// The guard of the block that ends before this granule.
    Left(u64),
    /// The lock of this bin.
    BinLock(u64),
    /// The first block of this bin.
    BinHead(u64),
    /// The block behind this one in its bin.
    Forward(u64),
    /// The block before this one in its bin.
    Backward(u64),
    /// The newest of the blocks that wait to be joined (deferred coalescing).
    Queue,
    /// The block behind this one in the queue, and how many granules this one has.
    QueueLink(u64),
    /// The newest of a seat's mailed slabs of a class.
    Mailbox { seat: u8, class: u8 },
    /// The newest of the slabs of this class that nobody keeps.
    Orphans(u8),
    /// The lock of the cache bin for blocks of so many granules.
    CacheLock(u64),
    /// The newest block of this cache bin.
    CacheHead(u64),
    /// How many blocks are in this cache bin.
    CacheItems(u64),
    /// How many objects of this cache bin's granules are in use.
    CacheUsed(u64),
    /// The mean age at which this cache bin's blocks are taken again.
    CacheMean(u64),
    /// The age from which on this cache bin releases a block.
    CacheThreshold(u64),
    /// When this cache bin was last asked for a block.
    CacheGet(u64),
    /// The age of the newest block that this cache bin released.
    CacheCleaned(u64),
    /// The block behind this one in its cache bin.
    CacheLink(u64),
    /// When this block came into its cache bin.
    CacheAge(u64),
    /// How many ticks were drawn.
    Clock,
    /// The lock of the office.
    OfficeLock,
    /// The region of this slot.
    Region(u64),
    /// The address at which the region of this slot begins.
    Base(u64),
}

impl Key {
    /// How many words there are.
    pub fn words(&self) -> usize
        ensures { result ≡ words_of self.now }
    {
        1036 * self.span as usize + 26 * self.seats as usize + 9376
    }
}

impl Word {
    /// Where the word lies in the row; the number of all words where it is none.
    pub fn index(self, key: &Key) -> usize
        ensures { result ≡ index_of key.now self }
    {
        let s = key.span as usize;
        let boxes = 26 * key.seats as usize;
        let all = key.words();
        match self {
            // those that a turn names most often come first
            Word::Mark(unit) => placed(unit, 1024 * s, 0, all),
            Word::BinHead(bin) => placed(bin, 512, 1031 * s + 515, all),
            Word::Size(granule) => placed(granule, s + 1, 1029 * s + 1, all),
            Word::Left(granule) => placed(granule, s + 1, 1030 * s + 2, all),
            Word::Kind(granule) => placed(granule, s + 1, 1024 * s, all),
            Word::Own(slab) => placed(slab, s, 1025 * s + 1, all),
            Word::BinLock(bin) => placed(bin, 512, 1031 * s + 3, all),
            Word::Forward(block) => placed(block, s, 1031 * s + 1027, all),
            Word::Backward(block) => placed(block, s, 1032 * s + 1027, all),
            Word::Public(slab) => placed(slab, s, 1026 * s + 1, all),
            Word::Next(slab) => placed(slab, s, 1027 * s + 1, all),
            Word::Header(slab) => placed(slab, s, 1028 * s + 1, all),
            Word::Queue => placed(0, 1, 1033 * s + 1027, all),
            Word::QueueLink(block) => placed(block, s, 1033 * s + 1028, all),
            Word::Mailbox { seat, class } => placed(
                mailbox_at(seat, class),
                boxes,
                1034 * s + 1028,
                all,
            ),
            Word::Orphans(class) => placed(u64::from(class), 26, 1034 * s + boxes + 1028, all),
            Word::CacheLock(granules) => placed(granules, 1024, 1034 * s + boxes + 1054, all),
            Word::CacheHead(granules) => placed(granules, 1024, 1034 * s + boxes + 2078, all),
            Word::CacheItems(granules) => placed(granules, 1024, 1034 * s + boxes + 3102, all),
            Word::CacheUsed(granules) => placed(granules, 1024, 1034 * s + boxes + 4126, all),
            Word::CacheMean(granules) => placed(granules, 1024, 1034 * s + boxes + 5150, all),
            Word::CacheThreshold(granules) => placed(granules, 1024, 1034 * s + boxes + 6174, all),
            Word::CacheGet(granules) => placed(granules, 1024, 1034 * s + boxes + 7198, all),
            Word::CacheCleaned(granules) => placed(granules, 1024, 1034 * s + boxes + 8222, all),
            Word::CacheLink(block) => placed(block, s, 1034 * s + boxes + 9246, all),
            Word::CacheAge(block) => placed(block, s, 1035 * s + boxes + 9246, all),
            Word::Clock => placed(0, 1, 1036 * s + boxes + 9246, all),
            Word::OfficeLock => placed(0, 1, 1036 * s + boxes + 9247, all),
            Word::Region(slot) => placed(slot, 64, 1036 * s + boxes + 9248, all),
            Word::Base(slot) => placed(slot, 64, 1036 * s + boxes + 9312, all),
        }
    }
}

/// Where the word at this index of its kind lies, of `size` words from `base` on: behind all words where the kind has
/// no such index.
#[tactic(auto, unfolding(crate::specs::Words::placed))]
fn placed(at: u64, size: usize, base: usize, all: usize) -> usize
    requires { base + size ≤ all }
    ensures { result ≡ placed at size base all }
{
    if at < size as u64 {
        base + at as usize
    } else {
        all
    }
}

/// Which of all mailboxes is that of the seat and the class, and an index that no mailbox has where there is no such
/// class.
fn mailbox_at(seat: u8, class: u8) -> u64
    ensures { result ≡ mailbox_at seat class }
{
    if class < 26 {
        26 * u64::from(seat) + u64::from(class)
    } else {
        u64::MAX
    }
}
