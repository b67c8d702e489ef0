//! Reno.

/// The scenario of `fast_retransmit`.
pub const FAST_RETRANSMIT: &str = "experiment fast-retransmit seed 0 budget 1000\n\
@0 pipe 1 config bw 8Mbit/s delay 10\n\
@0 pipe 2 config delay 10\n\
@0 add 100 pipe 1 tcp from 10.0.0.1 to 10.0.0.2\n\
@0 add 200 pipe 2 tcp from 10.0.0.2 to 10.0.0.1\n\
@0 flow 1 10.0.0.1 1000 10.0.0.2 80 smss 1000 segments 8 ssthresh 4000\n\
@21000000 add 50 deny tcp from 10.0.0.1 to any\n\
@22000000 delete 50\n\
@100000000 end\n";

/// The report of `FAST_RETRANSMIT`.
pub const FAST_RETRANSMIT_REPORT: &str = "experiment fast-retransmit\n\
0 ok 0\n\
0 ok 1\n\
0 ok 2\n\
0 ok 3\n\
0 ok 4\n\
1040000 finish 0 1.0\n\
2080000 finish 1 1.0\n\
3120000 finish 2 1.0\n\
4160000 finish 3 1.0\n\
11040000 deliver 0 data 1 0\n\
11040000 finish 4 2.0\n\
12080000 deliver 1 data 1 1000\n\
12080000 finish 5 2.0\n\
13120000 deliver 2 data 1 2000\n\
13120000 finish 6 2.0\n\
14160000 deliver 3 data 1 3000\n\
14160000 finish 7 2.0\n\
21000000 ok 5\n\
21040000 deliver 4 ack 1 1000\n\
21040000 ack 1 4250 4000\n\
21040000 drop 8 data 1 4000 denied\n\
22000000 ok 6\n\
22080000 deliver 5 ack 1 2000\n\
22080000 ack 1 4485 4000\n\
23120000 deliver 6 ack 1 3000\n\
23120000 ack 1 4707 4000\n\
23120000 finish 9 1.0\n\
24160000 deliver 7 ack 1 4000\n\
24160000 ack 1 4919 4000\n\
24160000 finish 10 1.0\n\
25200000 finish 11 1.0\n\
33120000 deliver 9 data 1 5000\n\
33120000 finish 12 2.0\n\
34160000 deliver 10 data 1 6000\n\
34160000 finish 13 2.0\n\
35200000 deliver 11 data 1 7000\n\
35200000 finish 14 2.0\n\
43120000 deliver 12 ack 1 4000\n\
43120000 ack 1 4919 4000\n\
44160000 deliver 13 ack 1 4000\n\
44160000 ack 1 4919 4000\n\
45200000 deliver 14 ack 1 4000\n\
45200000 ack 1 5000 2000\n\
46240000 finish 15 1.0\n\
56240000 deliver 15 data 1 4000\n\
56240000 finish 16 2.0\n\
66240000 deliver 16 ack 1 8000\n\
66240000 ack 1 2000 2000\n\
100000000 ok 7\n\
counters 17 16 0 1 0 0 0 0 0 0 0\n";

/// The scenario of `reno_four_segments`.
pub const RENO_FOUR_SEGMENTS: &str = "experiment r seed 1 budget 100\n\
@0 pipe 1 config bw 10Mbit/s delay 10\n\
@0 pipe 2 config delay 10\n\
@0 add 100 pipe 1 tcp from 10.0.0.1 to 10.0.0.2\n\
@0 add 200 pipe 2 tcp from 10.0.0.2 to 10.0.0.1\n\
@0 flow 1 10.0.0.1 1000 10.0.0.2 80 smss 1460 segments 4\n\
@100000000 end\n";

/// The report of `RENO_FOUR_SEGMENTS`.
pub const RENO_FOUR_SEGMENTS_REPORT: &str = "experiment r\n\
0 ok 0\n\
0 ok 1\n\
0 ok 2\n\
0 ok 3\n\
0 ok 4\n\
1200000 finish 0 1.0\n\
2400000 finish 1 1.0\n\
3600000 finish 2 1.0\n\
11200000 deliver 0 data 1 0\n\
11200000 finish 3 2.0\n\
12400000 deliver 1 data 1 1460\n\
12400000 finish 4 2.0\n\
13600000 deliver 2 data 1 2920\n\
13600000 finish 5 2.0\n\
21200000 deliver 3 ack 1 1460\n\
21200000 ack 1 5840 65535\n\
22400000 deliver 4 ack 1 2920\n\
22400000 ack 1 7300 65535\n\
22400000 finish 6 1.0\n\
23600000 deliver 5 ack 1 4380\n\
23600000 ack 1 8760 65535\n\
32400000 deliver 6 data 1 4380\n\
32400000 finish 7 2.0\n\
42400000 deliver 7 ack 1 5840\n\
42400000 ack 1 10220 65535\n\
100000000 ok 5\n\
counters 8 8 0 0 0 0 0 0 0 0 0\n";
