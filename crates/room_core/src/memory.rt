// The memory that a full room allocates for packets and verdicts, in bytes. A full room has 64 tracks and 256 subscribers.

// The reorder window of a track has places for 1,024 packets, each with its number and its arrival moment (`reorder_window`). The rest of this sum is
// for two slots, the index, and the heap's overhead for each block. A slot for a packet has 1,512 bytes (`packet_slot`).
const WINDOW: usize = 1025 * (1512 + 48);

// The frame under assembly has slots for 512 packets and one spare slot (`frame_assembly`).
const ASSEMBLY: usize = 513 * (1512 + 24);

// A subscriber's own copies: 49 pages of 49,152 bytes, each with its number, and 1,536 heads of packets (`out_ring`).
const RING: usize = 49 * (49_152 + 1) + 1536 * 24;

// A subscriber has the verdicts on 4,096 frames (`cause_book`).
const BOOK: usize = 4096 * 32;

// A buffer of a track's store has a packet with its length, two reference counts, and the heap's overhead for a block (`out_ring`).
const BUFFER: usize = 1536 + 8 + 16 + 8;

// The largest number of buffers that a subscriber adds to its track's store (`frame_cache`).
const OWN_BUFFERS: usize = 128;

const _: () = prove!(
    64 * (WINDOW + ASSEMBLY) + 256 * (RING + BOOK + OWN_BUFFERS * BUFFER) < 1_000_000_000
);
