//! Tests of tracks, as rows of text. Each track has a hold time of 100 milliseconds.
//!
//! The part of a line before `>` has one of four forms. A packet with one OBU element is written as four words: its time in milliseconds, its sequence
//! number, its descriptor, and its payload. The descriptor's header extension id is 4. A packet given as bytes is written as `raw`, its time, and these
//! bytes. A tick is written as `tick` and its time. A request for the missing sequence numbers is written as `missing`. The part after `>` is the expected
//! result: frames and packets with their sequence numbers, the refusal, the missing numbers, or nothing.

/// Rows of a layered track. A row consists of a text that says what the row shows, and of the row's lines.
///
/// Key descriptors begin with `c0`. A key descriptor with structure A is `c0 NN NN 80003a410100`. Structure A has one target and one chain. In template 1
/// of structure A, the target's indication is Switch, the frame distance is 1, and the chain link is 1. Structure B (`80003b410100`) differs from structure
/// A only in template 1, where the target's indication is Required. Structure C has two targets. In structure C, template 1 is in spatial layer 0, with
/// distance 2 and links 2 and 1. Templates 2 and 3 of structure C are in spatial layer 1, and each of them has links 1 and 1. Template 2 has distance 1.
/// Template 3 has distances 1 and 2.
pub const LAYERED: [(&str, &str); 10] = [
    (
        "a frame's packets come in any order",
        "0 1000 c0000180003a410100 183000 > frame 1 start 1 epoch 1 key mask 1 layer 0 0 dtis [2] refs [] links [0] of 1000\n\
         0 1001 810002 5030aa >\n\
         0 1003 410002 90cc >\n\
         missing > 1002\n\
         0 1002 010002 d0bb > frame 2 start 1 epoch 1 mask 1 layer 0 0 dtis [2] refs [1] links [1] of 1001 1002 1003\n",
    ),
    (
        "a gap is given up once the packet behind it was held for the hold, and the frame with it",
        "0 1000 c0000180003a410100 183000 > frame 1 start 1 epoch 1 key mask 1 layer 0 0 dtis [2] refs [] links [0] of 1000\n\
         10 1001 810002 5030aa >\n\
         20 1003 410002 90cc >\n\
         tick 119 >\n\
         missing > 1002\n\
         tick 120 >\n\
         missing >\n\
         130 1002 010002 d0bb > Late { next: 1004 }\n\
         140 1004 c10003 103000 > frame 3 start 1 epoch 1 mask 1 layer 0 0 dtis [2] refs [1] links [1] of 1004\n\
         140 1004 c10003 103000 > Late { next: 1005 }\n\
         140 1006 c10004 103000 >\n\
         140 1006 c10005 103000 > Repeat\n",
    ),
    (
        "packets of padding alone tear no frame and belong to none",
        "0 1000 c0000180003a410100 183000 > frame 1 start 1 epoch 1 key mask 1 layer 0 0 dtis [2] refs [] links [0] of 1000\n\
         raw 0 a06003e9000000001111111100000004 >\n\
         0 1002 810002 503000 >\n\
         raw 0 a06003eb000000001111111100000004 >\n\
         0 1004 410002 9000 > frame 2 start 1 epoch 1 mask 1 layer 0 0 dtis [2] refs [1] links [1] of 1002 1004\n",
    ),
    (
        "id 15 ends the elements, so the descriptor behind it isn't there",
        "0 1000 c0000180003a410100 183000 > frame 1 start 1 epoch 1 key mask 1 layer 0 0 dtis [2] refs [] links [0] of 1000\n\
         raw 0 906003e90000000011111111bede0002f00042c100020000103000 >\n\
         0 1002 c100031220 103000 > frame 3 start 1 epoch 1 mask 1 layer 0 0 dtis [2] refs [2] links [1] of 1002\n",
    ),
    (
        "elements may have the two-byte form",
        "raw 0 906003e80000000011111111100000080102aabb0418c00001800123ee88450422e00211111813f80b3827f816780000183000 > \
         frame 1 start 1 epoch 1 key mask 11 layer 0 0 dtis [3, 2] refs [] links [0, 0] of 1000\n",
    ),
    (
        "a frame has the mask of its own last packet, and later frames keep it; a structure without a mask sets all targets",
        "0 1000 c00001800123ee88450422e002111110 183000 > \
         frame 1 start 1 epoch 1 key mask 11 layer 0 0 dtis [3, 2] refs [] links [0, 0] of 1000\n\
         0 1001 820002 503000 >\n\
         0 1002 42000244 9000 > frame 2 start 1 epoch 1 mask 10 layer 1 0 dtis [2, 0] refs [1] links [1, 1] of 1001 1002\n\
         0 1003 c10003 103000 > frame 3 start 1 epoch 1 mask 10 layer 0 0 dtis [3, 2] refs [2] links [2, 1] of 1003\n\
         0 1004 830004 503000 >\n\
         0 1005 400004800123ee88450422e002111110 9000 > \
         frame 4 start 1 epoch 1 mask 11 layer 1 0 dtis [2, 0] refs [1, 2] links [1, 1] of 1004 1005\n",
    ),
    (
        "a key start begins its epoch though its payload doesn't read, and its frame isn't there",
        "0 1000 c10001 103000 >\n\
         0 1001 c0000180003a410100 183000 > frame 1 start 1 epoch 1 key mask 1 layer 0 0 dtis [2] refs [] links [0] of 1001\n\
         0 1002 c0000580003b410100 20 >\n\
         0 1003 c10006 103000 > frame 6 start 5 epoch 2 mask 1 layer 0 0 dtis [3] refs [1] links [1] of 1003\n",
    ),
    (
        "inside a frame the structure in force may stand again, and another isn't read",
        "0 1000 c0000180003a410100 183000 > frame 1 start 1 epoch 1 key mask 1 layer 0 0 dtis [2] refs [] links [0] of 1000\n\
         0 1001 810002 503000 >\n\
         0 1002 40000280003b410100 9000 >\n\
         0 1003 810003 503000 >\n\
         0 1004 40000380003a410100 9000 > frame 3 start 1 epoch 1 mask 1 layer 0 0 dtis [2] refs [1] links [1] of 1003 1004\n",
    ),
    (
        "a number that isn't above the newest, or lies too far ahead, is no frame; numbers go on where they wrap",
        "0 65534 c0000580003a410100 183000 > frame 5 start 5 epoch 1 key mask 1 layer 0 0 dtis [2] refs [] links [0] of 65534\n\
         0 65535 c10004 103000 >\n\
         0 0 c10005 103000 >\n\
         0 1 c18005 103000 >\n\
         0 2 c18004 103000 > frame 32772 start 5 epoch 1 mask 1 layer 0 0 dtis [2] refs [1] links [1] of 2\n\
         0 3 c1ffff 103000 > frame 65535 start 5 epoch 1 mask 1 layer 0 0 dtis [2] refs [1] links [1] of 3\n\
         0 4 c10000 103000 > frame 65536 start 5 epoch 1 mask 1 layer 0 0 dtis [2] refs [1] links [1] of 4\n\
         0 5 c0ffff80003a410100 183000 > \
         frame 131071 start 131071 epoch 2 key mask 1 layer 0 0 dtis [2] refs [] links [0] of 5\n",
    ),
    (
        "a moment before the first packet counts, and an earlier moment doesn't turn it back",
        "tick 50 >\n\
         missing >\n\
         10 1000 c0000180003a410100 183000 > frame 1 start 1 epoch 1 key mask 1 layer 0 0 dtis [2] refs [] links [0] of 1000\n\
         10 1002 c10003 103000 >\n\
         tick 149 >\n\
         tick 150 > frame 3 start 1 epoch 1 mask 1 layer 0 0 dtis [2] refs [1] links [1] of 1002\n",
    ),
];

/// Rows of a plain track, in the form of [`LAYERED`].
pub const PLAIN: [(&str, &str); 2] = [
    (
        "packets come in any order, padding among them",
        "raw 0 806003e80000000011111111aabb > packet 1000\n\
         raw 0 806003ea0000000011111111aabb >\n\
         raw 0 a06003e9000000001111111100000004 > packet 1001 packet 1002\n\
         raw 0 806003ec0000000011111111aabb >\n\
         tick 100 > packet 1004\n",
    ),
    (
        "what is no packet of the track is refused, and a packet too far ahead gives up what is behind it",
        "raw 0 8060 > Unreadable(Short)\n\
         raw 0 406003e80000000011111111 > Unreadable(Version)\n\
         raw 0 806003e80000000033333333 > WrongSsrc { got: 858993459, wanted: 286331153 }\n\
         raw 0 806003e80000000011111111 > packet 1000\n\
         raw 0 806007e90000000011111111 >\n\
         raw 0 806003e90000000011111111 > Late { next: 1002 }\n\
         raw 0 806007e90000000011111111 > Repeat\n",
    ),
];
