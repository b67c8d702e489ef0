//! CoDel.

/// The scenario of `codel_one_drop`.
pub const CODEL_ONE_DROP: &str = "experiment codel-one-drop seed 0 budget 64\n\
@0 pipe 1 config bw 1Mbit/s queue 50 codel\n\
@0 add 100 pipe 1 ip from any to any\n\
@0 train 1 udp 10.0.0.1 1000 10.0.0.2 2000 1000 count 30 gap 0\n\
@300000000 end\n";

/// The report of `CODEL_ONE_DROP`.
pub const CODEL_ONE_DROP_REPORT: &str = "experiment codel-one-drop\n\
0 ok 0\n\
0 ok 1\n\
0 ok 2\n\
8000000 finish 0 1.0\n\
8000001 deliver 0 plain\n\
16000000 finish 1 1.0\n\
16000001 deliver 1 plain\n\
24000000 finish 2 1.0\n\
24000001 deliver 2 plain\n\
32000000 finish 3 1.0\n\
32000001 deliver 3 plain\n\
40000000 finish 4 1.0\n\
40000001 deliver 4 plain\n\
48000000 finish 5 1.0\n\
48000001 deliver 5 plain\n\
56000000 finish 6 1.0\n\
56000001 deliver 6 plain\n\
64000000 finish 7 1.0\n\
64000001 deliver 7 plain\n\
72000000 finish 8 1.0\n\
72000001 deliver 8 plain\n\
80000000 finish 9 1.0\n\
80000001 deliver 9 plain\n\
88000000 finish 10 1.0\n\
88000001 deliver 10 plain\n\
96000000 finish 11 1.0\n\
96000001 deliver 11 plain\n\
104000000 finish 12 1.0\n\
104000001 deliver 12 plain\n\
112000000 finish 13 1.0\n\
112000000 drop 14 plain codel\n\
112000001 deliver 13 plain\n\
120000000 finish 15 1.0\n\
120000001 deliver 15 plain\n\
128000000 finish 16 1.0\n\
128000001 deliver 16 plain\n\
136000000 finish 17 1.0\n\
136000001 deliver 17 plain\n\
144000000 finish 18 1.0\n\
144000001 deliver 18 plain\n\
152000000 finish 19 1.0\n\
152000001 deliver 19 plain\n\
160000000 finish 20 1.0\n\
160000001 deliver 20 plain\n\
168000000 finish 21 1.0\n\
168000001 deliver 21 plain\n\
176000000 finish 22 1.0\n\
176000001 deliver 22 plain\n\
184000000 finish 23 1.0\n\
184000001 deliver 23 plain\n\
192000000 finish 24 1.0\n\
192000001 deliver 24 plain\n\
200000000 finish 25 1.0\n\
200000001 deliver 25 plain\n\
208000000 finish 26 1.0\n\
208000001 deliver 26 plain\n\
216000000 finish 27 1.0\n\
216000001 deliver 27 plain\n\
224000000 finish 28 1.0\n\
224000001 deliver 28 plain\n\
232000000 finish 29 1.0\n\
232000001 deliver 29 plain\n\
300000000 ok 3\n\
counters 30 29 0 0 0 0 0 0 1 0 0\n";

/// The scenario of `codel_two_drops`.
pub const CODEL_TWO_DROPS: &str = "experiment codel-two-drops seed 0 budget 64\n\
@0 pipe 1 config bw 1Mbit/s queue 50 codel\n\
@0 add 100 pipe 1 ip from any to any\n\
@0 train 1 udp 10.0.0.1 1000 10.0.0.2 2000 1000 count 40 gap 0\n\
@400000000 end\n";

/// The report of `CODEL_TWO_DROPS`.
pub const CODEL_TWO_DROPS_REPORT: &str = "experiment codel-two-drops\n\
0 ok 0\n\
0 ok 1\n\
0 ok 2\n\
8000000 finish 0 1.0\n\
8000001 deliver 0 plain\n\
16000000 finish 1 1.0\n\
16000001 deliver 1 plain\n\
24000000 finish 2 1.0\n\
24000001 deliver 2 plain\n\
32000000 finish 3 1.0\n\
32000001 deliver 3 plain\n\
40000000 finish 4 1.0\n\
40000001 deliver 4 plain\n\
48000000 finish 5 1.0\n\
48000001 deliver 5 plain\n\
56000000 finish 6 1.0\n\
56000001 deliver 6 plain\n\
64000000 finish 7 1.0\n\
64000001 deliver 7 plain\n\
72000000 finish 8 1.0\n\
72000001 deliver 8 plain\n\
80000000 finish 9 1.0\n\
80000001 deliver 9 plain\n\
88000000 finish 10 1.0\n\
88000001 deliver 10 plain\n\
96000000 finish 11 1.0\n\
96000001 deliver 11 plain\n\
104000000 finish 12 1.0\n\
104000001 deliver 12 plain\n\
112000000 finish 13 1.0\n\
112000000 drop 14 plain codel\n\
112000001 deliver 13 plain\n\
120000000 finish 15 1.0\n\
120000001 deliver 15 plain\n\
128000000 finish 16 1.0\n\
128000001 deliver 16 plain\n\
136000000 finish 17 1.0\n\
136000001 deliver 17 plain\n\
144000000 finish 18 1.0\n\
144000001 deliver 18 plain\n\
152000000 finish 19 1.0\n\
152000001 deliver 19 plain\n\
160000000 finish 20 1.0\n\
160000001 deliver 20 plain\n\
168000000 finish 21 1.0\n\
168000001 deliver 21 plain\n\
176000000 finish 22 1.0\n\
176000001 deliver 22 plain\n\
184000000 finish 23 1.0\n\
184000001 deliver 23 plain\n\
192000000 finish 24 1.0\n\
192000001 deliver 24 plain\n\
200000000 finish 25 1.0\n\
200000001 deliver 25 plain\n\
208000000 finish 26 1.0\n\
208000001 deliver 26 plain\n\
216000000 finish 27 1.0\n\
216000000 drop 28 plain codel\n\
216000001 deliver 27 plain\n\
224000000 finish 29 1.0\n\
224000001 deliver 29 plain\n\
232000000 finish 30 1.0\n\
232000001 deliver 30 plain\n\
240000000 finish 31 1.0\n\
240000001 deliver 31 plain\n\
248000000 finish 32 1.0\n\
248000001 deliver 32 plain\n\
256000000 finish 33 1.0\n\
256000001 deliver 33 plain\n\
264000000 finish 34 1.0\n\
264000001 deliver 34 plain\n\
272000000 finish 35 1.0\n\
272000001 deliver 35 plain\n\
280000000 finish 36 1.0\n\
280000001 deliver 36 plain\n\
288000000 finish 37 1.0\n\
288000001 deliver 37 plain\n\
296000000 finish 38 1.0\n\
296000001 deliver 38 plain\n\
304000000 finish 39 1.0\n\
304000001 deliver 39 plain\n\
400000000 ok 3\n\
counters 40 38 0 0 0 0 0 0 2 0 0\n";
