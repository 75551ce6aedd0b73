//! Dependency descriptors of a browser's AV1 encoder in four scalability modes. The expected values come from an independent parser of these descriptors.
//! That parser was written from Appendix A.

/// Each line is about one descriptor. A `key` line has a descriptor that carries a structure. A `then` line has a descriptor that is read with the
/// structure of the last `key` line. After `key` or `then` come the descriptor, and the meaning of the frame to which the descriptor belongs. The track's
/// first frame begins with the descriptor of the last `key` line. The last digit of the mask stands for decode target 0.
pub const REAL: &str = "\
key 80000180003a4101809f805980 frame 1 start 1 epoch 1 key mask 1 layer 0 0 dtis [2] refs [] links [0]\n\
then 000001 frame 1 start 1 epoch 1 key mask 1 layer 0 0 dtis [2] refs [] links [0]\n\
then 400001 frame 1 start 1 epoch 1 key mask 1 layer 0 0 dtis [2] refs [] links [0]\n\
then 810002 frame 2 start 1 epoch 1 mask 1 layer 0 0 dtis [2] refs [1] links [1]\n\
then 410002 frame 2 start 1 epoch 1 mask 1 layer 0 0 dtis [2] refs [1] links [1]\n\
then 010007 frame 7 start 1 epoch 1 mask 1 layer 0 0 dtis [2] refs [1] links [1]\n\
key 82006680403a410180ef808680 frame 102 start 102 epoch 1 key mask 1 layer 0 0 dtis [2] refs [] links [0]\n\
then 020066 frame 102 start 102 epoch 1 key mask 1 layer 0 0 dtis [2] refs [] links [0]\n\
then 420066 frame 102 start 102 epoch 1 key mask 1 layer 0 0 dtis [2] refs [] links [0]\n\
then 830067 frame 103 start 102 epoch 1 mask 1 layer 0 0 dtis [2] refs [1] links [1]\n\
then 430067 frame 103 start 102 epoch 1 mask 1 layer 0 0 dtis [2] refs [1] links [1]\n\
then 03006a frame 106 start 102 epoch 1 mask 1 layer 0 0 dtis [2] refs [1] links [1]\n\
key 8400a380803a4101813f80b380 frame 163 start 163 epoch 1 key mask 1 layer 0 0 dtis [2] refs [] links [0]\n\
then 0400a3 frame 163 start 163 epoch 1 key mask 1 layer 0 0 dtis [2] refs [] links [0]\n\
then 4400a3 frame 163 start 163 epoch 1 key mask 1 layer 0 0 dtis [2] refs [] links [0]\n\
then 8500a4 frame 164 start 163 epoch 1 mask 1 layer 0 0 dtis [2] refs [1] links [1]\n\
then 0500a4 frame 164 start 163 epoch 1 mask 1 layer 0 0 dtis [2] refs [1] links [1]\n\
then 4500a4 frame 164 start 163 epoch 1 mask 1 layer 0 0 dtis [2] refs [1] links [1]\n\
then c500a8 frame 168 start 163 epoch 1 mask 1 layer 0 0 dtis [2] refs [1] links [1]\n\
key 800001800214eaa860414d1410208427013f00b3 frame 1 start 1 epoch 1 key mask 111 layer 0 0 dtis [2, 2, 2] refs [] links [0]\n\
then 000001 frame 1 start 1 epoch 1 key mask 111 layer 0 0 dtis [2, 2, 2] refs [] links [0]\n\
then 400001 frame 1 start 1 epoch 1 key mask 111 layer 0 0 dtis [2, 2, 2] refs [] links [0]\n\
then c30002 frame 2 start 1 epoch 1 mask 111 layer 0 2 dtis [0, 0, 1] refs [1] links [1]\n\
then 820003 frame 3 start 1 epoch 1 mask 111 layer 0 1 dtis [0, 1, 2] refs [2] links [2]\n\
then 420003 frame 3 start 1 epoch 1 mask 111 layer 0 1 dtis [0, 1, 2] refs [2] links [2]\n\
then c40004 frame 4 start 1 epoch 1 mask 111 layer 0 2 dtis [0, 0, 1] refs [1] links [3]\n\
then 810005 frame 5 start 1 epoch 1 mask 111 layer 0 0 dtis [2, 2, 2] refs [4] links [4]\n\
then 410005 frame 5 start 1 epoch 1 mask 111 layer 0 0 dtis [2, 2, 2] refs [4] links [4]\n\
then 830006 frame 6 start 1 epoch 1 mask 111 layer 0 2 dtis [0, 0, 1] refs [1] links [1]\n\
then 430006 frame 6 start 1 epoch 1 mask 111 layer 0 2 dtis [0, 0, 1] refs [1] links [1]\n\
then 840008 frame 8 start 1 epoch 1 mask 111 layer 0 2 dtis [0, 0, 1] refs [1] links [3]\n\
then 440008 frame 8 start 1 epoch 1 mask 111 layer 0 2 dtis [0, 0, 1] refs [1] links [3]\n\
then 010009 frame 9 start 1 epoch 1 mask 111 layer 0 0 dtis [2, 2, 2] refs [4] links [4]\n\
then 02000f frame 15 start 1 epoch 1 mask 111 layer 0 1 dtis [0, 1, 2] refs [2] links [2]\n\
then 04001c frame 28 start 1 epoch 1 mask 111 layer 0 2 dtis [0, 0, 1] refs [1] links [3]\n\
then 030022 frame 34 start 1 epoch 1 mask 111 layer 0 2 dtis [0, 0, 1] refs [1] links [1]\n\
key 85005980a214eaa860414d141020842701df010d frame 89 start 89 epoch 1 key mask 111 layer 0 0 dtis [2, 2, 2] refs [] links [0]\n\
then 050059 frame 89 start 89 epoch 1 key mask 111 layer 0 0 dtis [2, 2, 2] refs [] links [0]\n\
then 450059 frame 89 start 89 epoch 1 key mask 111 layer 0 0 dtis [2, 2, 2] refs [] links [0]\n\
then c8005a frame 90 start 89 epoch 1 mask 111 layer 0 2 dtis [0, 0, 1] refs [1] links [1]\n\
then c7005b frame 91 start 89 epoch 1 mask 111 layer 0 1 dtis [0, 1, 2] refs [2] links [2]\n\
then 89005c frame 92 start 89 epoch 1 mask 111 layer 0 2 dtis [0, 0, 1] refs [1] links [3]\n\
then 49005c frame 92 start 89 epoch 1 mask 111 layer 0 2 dtis [0, 0, 1] refs [1] links [3]\n\
then 86005d frame 93 start 89 epoch 1 mask 111 layer 0 0 dtis [2, 2, 2] refs [4] links [4]\n\
then 46005d frame 93 start 89 epoch 1 mask 111 layer 0 0 dtis [2, 2, 2] refs [4] links [4]\n\
then 88005e frame 94 start 89 epoch 1 mask 111 layer 0 2 dtis [0, 0, 1] refs [1] links [1]\n\
then 08005e frame 94 start 89 epoch 1 mask 111 layer 0 2 dtis [0, 0, 1] refs [1] links [1]\n\
then 48005e frame 94 start 89 epoch 1 mask 111 layer 0 2 dtis [0, 0, 1] refs [1] links [1]\n\
then 87005f frame 95 start 89 epoch 1 mask 111 layer 0 1 dtis [0, 1, 2] refs [2] links [2]\n\
then 47005f frame 95 start 89 epoch 1 mask 111 layer 0 1 dtis [0, 1, 2] refs [2] links [2]\n\
then 090060 frame 96 start 89 epoch 1 mask 111 layer 0 2 dtis [0, 0, 1] refs [1] links [3]\n\
then 060061 frame 97 start 89 epoch 1 mask 111 layer 0 0 dtis [2, 2, 2] refs [4] links [4]\n\
key 8000018003187aaa0100a0a014d1413451802190888a19404fc02cc09fc059c0 frame 1 start 1 epoch 1 key mask 1111 layer 0 0 dtis [2, 2, 2, 2] refs [] links [0, 0]\n\
then 400001 frame 1 start 1 epoch 1 key mask 1111 layer 0 0 dtis [2, 2, 2, 2] refs [] links [0, 0]\n\
then c30002 frame 2 start 1 epoch 1 mask 1111 layer 1 0 dtis [0, 0, 2, 2] refs [1] links [1, 1]\n\
then c20003 frame 3 start 1 epoch 1 mask 1111 layer 0 1 dtis [0, 1, 0, 0] refs [2] links [2, 1]\n\
then c50004 frame 4 start 1 epoch 1 mask 1111 layer 1 1 dtis [0, 0, 0, 1] refs [2] links [3, 2]\n\
then 810005 frame 5 start 1 epoch 1 mask 1111 layer 0 0 dtis [2, 2, 0, 0] refs [4] links [4, 3]\n\
then 410005 frame 5 start 1 epoch 1 mask 1111 layer 0 0 dtis [2, 2, 0, 0] refs [4] links [4, 3]\n\
then 840006 frame 6 start 1 epoch 1 mask 1111 layer 1 0 dtis [0, 0, 2, 2] refs [4] links [1, 4]\n\
then 040006 frame 6 start 1 epoch 1 mask 1111 layer 1 0 dtis [0, 0, 2, 2] refs [4] links [1, 4]\n\
then 440006 frame 6 start 1 epoch 1 mask 1111 layer 1 0 dtis [0, 0, 2, 2] refs [4] links [1, 4]\n\
then c10009 frame 9 start 1 epoch 1 mask 1111 layer 0 0 dtis [2, 2, 0, 0] refs [4] links [4, 3]\n\
then 85000c frame 12 start 1 epoch 1 mask 1111 layer 1 1 dtis [0, 0, 0, 1] refs [2] links [3, 2]\n\
then 45000c frame 12 start 1 epoch 1 mask 1111 layer 1 1 dtis [0, 0, 0, 1] refs [2] links [3, 2]\n\
then 83000d1a402018 frame 13 start 1 epoch 1 mask 1111 layer 1 0 dtis [0, 0, 2, 2] refs [3] links [4, 3]\n\
then 03000d1a402018 frame 13 start 1 epoch 1 mask 1111 layer 1 0 dtis [0, 0, 2, 2] refs [3] links [4, 3]\n\
then 43000d1a402018 frame 13 start 1 epoch 1 mask 1111 layer 1 0 dtis [0, 0, 2, 2] refs [3] links [4, 3]\n\
then c2000e1a802808 frame 14 start 1 epoch 1 mask 1111 layer 0 1 dtis [0, 1, 0, 0] refs [5] links [5, 1]\n\
then 85000f083010 frame 15 start 1 epoch 1 mask 1111 layer 1 1 dtis [0, 0, 0, 1] refs [2] links [6, 2]\n\
then 45000f083010 frame 15 start 1 epoch 1 mask 1111 layer 1 1 dtis [0, 0, 0, 1] refs [2] links [6, 2]\n\
then c100101ac03818 frame 16 start 1 epoch 1 mask 1111 layer 0 0 dtis [2, 2, 0, 0] refs [7] links [7, 3]\n\
key 810001c0081485214eafffaaaa863cf0430c10c302afc0aaa0063c00430010c002a000a80006000040001d954926e082b04a0941b820ac1282503157f974000ca864330e222222eca8655304224230eca8775300ef008601df010d03bf021b1f80 frame 1 start 1 epoch 1 key mask 111111 layer 0 0 dtis [2, 2, 2, 2, 2, 2, 2, 2, 2] refs [] links [0, 0, 0]\n\
then 410001 frame 1 start 1 epoch 1 key mask 111111 layer 0 0 dtis [2, 2, 2, 2, 2, 2, 2, 2, 2] refs [] links [0, 0, 0]\n\
then c60002 frame 2 start 1 epoch 1 mask 111111 layer 1 0 dtis [0, 0, 0, 2, 2, 2, 2, 2, 2] refs [1] links [1, 1, 1]\n\
then c300031a20100800 frame 3 start 1 epoch 1 mask 111111 layer 0 2 dtis [0, 0, 1, 0, 0, 3, 0, 0, 3] refs [2] links [2, 1, 0]\n\
then c800041a2800604000 frame 4 start 1 epoch 1 mask 111111 layer 1 2 dtis [0, 0, 0, 0, 0, 1, 0, 0, 3] refs [2, 1] links [3, 2, 0]\n\
then c200051a60201800 frame 5 start 1 epoch 1 mask 111111 layer 0 1 dtis [0, 1, 2, 0, 3, 3, 0, 3, 3] refs [4] links [4, 3, 0]\n\
then c700061a6800a08000 frame 6 start 1 epoch 1 mask 111111 layer 1 1 dtis [0, 0, 0, 0, 1, 2, 0, 3, 3] refs [4, 1] links [5, 4, 0]\n\
then c300075ffd10181414 frame 7 start 1 epoch 1 mask 111111111 layer 0 2 dtis [0, 0, 1, 0, 0, 3, 0, 0, 3] refs [2] links [6, 5, 5]\n\
then c800085ffd1400706060 frame 8 start 1 epoch 1 mask 111111111 layer 1 2 dtis [0, 0, 0, 0, 0, 1, 0, 0, 3] refs [2, 1] links [7, 6, 6]\n\
then 8000095ffd70201c1c frame 9 start 1 epoch 1 mask 111111111 layer 0 0 dtis [2, 2, 2, 3, 3, 3, 3, 3, 3] refs [8] links [8, 7, 7]\n\
then 4000091ae0403838 frame 9 start 1 epoch 1 mask 111111 layer 0 0 dtis [2, 2, 2, 3, 3, 3, 3, 3, 3] refs [8] links [8, 7, 7]\n\
then 85000a12e800 frame 10 start 1 epoch 1 mask 111111 layer 1 0 dtis [0, 0, 0, 2, 2, 2, 3, 3, 3] refs [8, 1] links [1, 1, 1]\n\
then 45000a12e800 frame 10 start 1 epoch 1 mask 111111 layer 1 0 dtis [0, 0, 0, 2, 2, 2, 3, 3, 3] refs [8, 1] links [1, 1, 1]\n\
then 8b000b frame 11 start 1 epoch 1 mask 111111 layer 2 0 dtis [0, 0, 0, 0, 0, 0, 2, 2, 2] refs [1] links [2, 1, 1]\n\
then 0b000b frame 11 start 1 epoch 1 mask 111111 layer 2 0 dtis [0, 0, 0, 0, 0, 0, 2, 2, 2] refs [1] links [2, 1, 1]\n\
then 4b000b frame 11 start 1 epoch 1 mask 111111 layer 2 0 dtis [0, 0, 0, 0, 0, 0, 2, 2, 2] refs [1] links [2, 1, 1]\n\
then c3000c frame 12 start 1 epoch 1 mask 111111 layer 0 2 dtis [0, 0, 1, 0, 0, 3, 0, 0, 3] refs [3] links [3, 2, 1]\n\
then c8000d frame 13 start 1 epoch 1 mask 111111 layer 1 2 dtis [0, 0, 0, 0, 0, 1, 0, 0, 3] refs [3, 1] links [4, 3, 2]\n\
then 8d000e frame 14 start 1 epoch 1 mask 111111 layer 2 2 dtis [0, 0, 0, 0, 0, 0, 0, 0, 1] refs [3, 1] links [5, 4, 3]\n\
then 4d000e frame 14 start 1 epoch 1 mask 111111 layer 2 2 dtis [0, 0, 0, 0, 0, 0, 0, 0, 1] refs [3, 1] links [5, 4, 3]\n\
then c2000f frame 15 start 1 epoch 1 mask 111111 layer 0 1 dtis [0, 1, 2, 0, 3, 3, 0, 3, 3] refs [6] links [6, 5, 4]\n\
then c70010 frame 16 start 1 epoch 1 mask 111111 layer 1 1 dtis [0, 0, 0, 0, 1, 2, 0, 3, 3] refs [6, 1] links [7, 6, 5]\n\
then 8c0011 frame 17 start 1 epoch 1 mask 111111 layer 2 1 dtis [0, 0, 0, 0, 0, 0, 0, 1, 2] refs [6, 1] links [8, 7, 6]\n\
then 4c0011 frame 17 start 1 epoch 1 mask 111111 layer 2 1 dtis [0, 0, 0, 0, 0, 0, 0, 1, 2] refs [6, 1] links [8, 7, 6]\n\
then c40012 frame 18 start 1 epoch 1 mask 111111 layer 0 2 dtis [0, 0, 1, 0, 0, 3, 0, 0, 3] refs [3] links [9, 8, 7]\n\
then c90013 frame 19 start 1 epoch 1 mask 111111 layer 1 2 dtis [0, 0, 0, 0, 0, 1, 0, 0, 3] refs [3, 1] links [10, 9, 8]\n\
then ce0014 frame 20 start 1 epoch 1 mask 111111 layer 2 2 dtis [0, 0, 0, 0, 0, 0, 0, 0, 1] refs [3, 1] links [11, 10, 9]\n\
then c00015 frame 21 start 1 epoch 1 mask 111111 layer 0 0 dtis [2, 2, 2, 3, 3, 3, 3, 3, 3] refs [12] links [12, 11, 10]\n\
then 850016 frame 22 start 1 epoch 1 mask 111111 layer 1 0 dtis [0, 0, 0, 2, 2, 2, 3, 3, 3] refs [12, 1] links [1, 1, 1]\n\
then 050016 frame 22 start 1 epoch 1 mask 111111 layer 1 0 dtis [0, 0, 0, 2, 2, 2, 3, 3, 3] refs [12, 1] links [1, 1, 1]\n\
then 450016 frame 22 start 1 epoch 1 mask 111111 layer 1 0 dtis [0, 0, 0, 2, 2, 2, 3, 3, 3] refs [12, 1] links [1, 1, 1]\n\
then 8a0017 frame 23 start 1 epoch 1 mask 111111 layer 2 0 dtis [0, 0, 0, 0, 0, 0, 2, 2, 2] refs [12, 1] links [2, 1, 1]\n\
then 0a0017 frame 23 start 1 epoch 1 mask 111111 layer 2 0 dtis [0, 0, 0, 0, 0, 0, 2, 2, 2] refs [12, 1] links [2, 1, 1]\n\
then 4a0017 frame 23 start 1 epoch 1 mask 111111 layer 2 0 dtis [0, 0, 0, 0, 0, 0, 2, 2, 2] refs [12, 1] links [2, 1, 1]\n\
then 8e0020 frame 32 start 1 epoch 1 mask 111111 layer 2 2 dtis [0, 0, 0, 0, 0, 0, 0, 0, 1] refs [3, 1] links [11, 10, 9]\n\
then 4e0020 frame 32 start 1 epoch 1 mask 111111 layer 2 2 dtis [0, 0, 0, 0, 0, 0, 0, 0, 1] refs [3, 1] links [11, 10, 9]\n\
then 890043 frame 67 start 1 epoch 1 mask 111111 layer 1 2 dtis [0, 0, 0, 0, 0, 1, 0, 0, 3] refs [3, 1] links [10, 9, 8]\n\
then 490043 frame 67 start 1 epoch 1 mask 111111 layer 1 2 dtis [0, 0, 0, 0, 0, 1, 0, 0, 3] refs [3, 1] links [10, 9, 8]\n\
then 0e0044 frame 68 start 1 epoch 1 mask 111111 layer 2 2 dtis [0, 0, 0, 0, 0, 0, 0, 0, 1] refs [3, 1] links [11, 10, 9]\n\
then 0d004a frame 74 start 1 epoch 1 mask 111111 layer 2 2 dtis [0, 0, 0, 0, 0, 0, 0, 0, 1] refs [3, 1] links [5, 4, 3]\n\
then 0c004d frame 77 start 1 epoch 1 mask 111111 layer 2 1 dtis [0, 0, 0, 0, 0, 0, 0, 1, 2] refs [6, 1] links [8, 7, 6]\n\
then 880061 frame 97 start 1 epoch 1 mask 111111 layer 1 2 dtis [0, 0, 0, 0, 0, 1, 0, 0, 3] refs [3, 1] links [4, 3, 2]\n\
then 480061 frame 97 start 1 epoch 1 mask 111111 layer 1 2 dtis [0, 0, 0, 0, 0, 1, 0, 0, 3] refs [3, 1] links [4, 3, 2]\n\
then 800069 frame 105 start 1 epoch 1 mask 111111 layer 0 0 dtis [2, 2, 2, 3, 3, 3, 3, 3, 3] refs [12] links [12, 11, 10]\n\
then 400069 frame 105 start 1 epoch 1 mask 111111 layer 0 0 dtis [2, 2, 2, 3, 3, 3, 3, 3, 3] refs [12] links [12, 11, 10]\n\
";
