//! Scenarios with several experiments.

/// The scenario of `four_experiments`.
pub const FOUR_EXPERIMENTS: &str = "experiment a seed 0 budget 10\n\
@0 pipe 1 config bw 1Mbit/s delay 10\n\
@0 add 100 pipe 1 ip from any to any\n\
@0 inject udp 10.0.0.1 1000 10.0.0.2 2000 1000\n\
@20000000 end\n\
experiment n seed 0 budget 10\n\
@0 add 300 pipe 1 ip from any to any\n\
@0 add 100 count ip from any to any\n\
@0 add 100 skipto 300 ip from any to any\n\
@0 add 200 deny ip from any to any\n\
@0 pipe 1 config bw 1Mbit/s\n\
@0 inject udp 10.0.0.1 1000 10.0.0.2 2000 1000\n\
@0 show\n\
@0 pipe show\n\
@9000000 end\n\
experiment r seed 1 budget 100\n\
@0 pipe 1 config bw 10Mbit/s delay 10\n\
@0 pipe 2 config delay 10\n\
@0 add 100 pipe 1 tcp from 10.0.0.1 to 10.0.0.2\n\
@0 add 200 pipe 2 tcp from 10.0.0.2 to 10.0.0.1\n\
@0 flow 1 10.0.0.1 1000 10.0.0.2 80 smss 1460 segments 4\n\
@100000000 end\n\
experiment s seed 0 budget 10 steps 2\n\
@0 show\n\
@0 show\n\
@0 end\n";

/// The report of `FOUR_EXPERIMENTS`.
pub const FOUR_EXPERIMENTS_REPORT: &str = "experiment a\n\
0 ok 0\n\
0 ok 1\n\
0 ok 2\n\
8000000 finish 0 1.0\n\
18000000 deliver 0 plain\n\
20000000 ok 3\n\
counters 1 1 0 0 0 0 0 0 0 0 0\n\
experiment n\n\
0 ok 0\n\
0 ok 1\n\
0 ok 2\n\
0 ok 3\n\
0 ok 4\n\
0 ok 5\n\
0 ok 6\n\
rule 00100 1 1000 count ip from any to any\n\
rule 00100 1 1000 skipto 300 ip from any to any\n\
rule 00200 0 0 deny ip from any to any\n\
rule 00300 1 1000 pipe 1 ip from any to any\n\
rule 65535 0 0 deny ip from any to any\n\
0 ok 7\n\
pipe 1 bw 1000000 delay 0 queue 50 plr 0 mask 00/00000000/00000000/0000/0000 droptail\n\
instance 1.0 waiting 0 bytes 0 busy 1 flight 0 drawn 1\n\
8000000 finish 0 1.0\n\
8000001 deliver 0 plain\n\
9000000 ok 8\n\
counters 1 1 0 0 0 0 0 0 0 0 0\n\
experiment r\n\
0 ok 0\n\
0 ok 1\n\
0 ok 2\n\
0 ok 3\n\
0 ok 4\n\
1200000 finish 0 1.0\n\
2400000 finish 1 1.0\n\
3600000 finish 2 1.0\n\
11200000 deliver 0 data 1 0\n\
11200000 finish 3 2.0\n\
12400000 deliver 1 data 1 1460\n\
12400000 finish 4 2.0\n\
13600000 deliver 2 data 1 2920\n\
13600000 finish 5 2.0\n\
21200000 deliver 3 ack 1 1460\n\
21200000 ack 1 5840 65535\n\
22400000 deliver 4 ack 1 2920\n\
22400000 ack 1 7300 65535\n\
22400000 finish 6 1.0\n\
23600000 deliver 5 ack 1 4380\n\
23600000 ack 1 8760 65535\n\
32400000 deliver 6 data 1 4380\n\
32400000 finish 7 2.0\n\
42400000 deliver 7 ack 1 5840\n\
42400000 ack 1 10220 65535\n\
100000000 ok 5\n\
counters 8 8 0 0 0 0 0 0 0 0 0\n\
experiment s\n\
0 ok 0\n\
rule 65535 0 0 deny ip from any to any\n\
0 ok 1\n\
rule 65535 0 0 deny ip from any to any\n\
0 spent\n\
counters 0 0 0 0 0 0 0 0 0 0 0\n";
