//! Rules, pipes, queues and budgets.

/// The scenario of `one_packet`.
pub const ONE_PACKET: &str = "experiment a seed 0 budget 10\n\
@0 pipe 1 config bw 1Mbit/s delay 10\n\
@0 add 100 pipe 1 ip from any to any\n\
@0 inject udp 10.0.0.1 1000 10.0.0.2 2000 1000\n\
@20000000 end\n";

/// The report of `ONE_PACKET`.
pub const ONE_PACKET_REPORT: &str = "experiment a\n\
0 ok 0\n\
0 ok 1\n\
0 ok 2\n\
8000000 finish 0 1.0\n\
18000000 deliver 0 plain\n\
20000000 ok 3\n\
counters 1 1 0 0 0 0 0 0 0 0 0\n";

/// The scenario of `one_slot`.
pub const ONE_SLOT: &str = "experiment one-slot seed 0 budget 1000\n\
@0 pipe 1 config bw 1Mbit/s queue 1\n\
@0 add 100 pipe 1 ip from any to any\n\
@0 inject udp 10.0.0.1 1000 10.0.0.2 2000 1000\n\
@0 inject udp 10.0.0.1 1000 10.0.0.2 2000 1000\n\
@0 inject udp 10.0.0.1 1000 10.0.0.2 2000 1000\n\
@0 pipe show\n\
@20000000 end\n";

/// The report of `ONE_SLOT`.
pub const ONE_SLOT_REPORT: &str = "experiment one-slot\n\
0 ok 0\n\
0 ok 1\n\
0 ok 2\n\
0 ok 3\n\
0 ok 4\n\
0 drop 2 plain full\n\
0 ok 5\n\
pipe 1 bw 1000000 delay 0 queue 1 plr 0 mask 00/00000000/00000000/0000/0000 droptail\n\
instance 1.0 waiting 1 bytes 1000 busy 1 flight 0 drawn 3\n\
8000000 finish 0 1.0\n\
8000001 deliver 0 plain\n\
16000000 finish 1 1.0\n\
16000001 deliver 1 plain\n\
20000000 ok 6\n\
counters 3 2 0 0 0 0 0 1 0 0 0\n";

/// The scenario of `new_rate`.
pub const NEW_RATE: &str = "experiment new-rate seed 0 budget 1000\n\
@0 pipe 1 config bw 1Mbit/s\n\
@0 add 100 pipe 1 ip from any to any\n\
@0 inject udp 10.0.0.1 1000 10.0.0.2 2000 1000\n\
@0 inject udp 10.0.0.1 1000 10.0.0.2 2000 1000\n\
@4000000 pipe 1 config bw 2Mbit/s\n\
@20000000 end\n";

/// The report of `NEW_RATE`.
pub const NEW_RATE_REPORT: &str = "experiment new-rate\n\
0 ok 0\n\
0 ok 1\n\
0 ok 2\n\
0 ok 3\n\
4000000 ok 4\n\
8000000 finish 0 1.0\n\
8000001 deliver 0 plain\n\
12000000 finish 1 1.0\n\
12000001 deliver 1 plain\n\
20000000 ok 5\n\
counters 2 2 0 0 0 0 0 0 0 0 0\n";

/// The scenario of `two_pipes_in_turn`.
pub const TWO_PIPES_IN_TURN: &str = "experiment two-pipes-in-turn seed 0 budget 1000\n\
@0 one_pass 0\n\
@0 pipe 1 config delay 10\n\
@0 pipe 2 config delay 5\n\
@0 add 100 pipe 1 ip from any to any\n\
@0 add 200 pipe 2 ip from any to any\n\
@0 add 300 allow ip from any to any\n\
@0 inject udp 10.0.0.1 1000 10.0.0.2 2000 1000\n\
@20000000 end\n";

/// The report of `TWO_PIPES_IN_TURN`.
pub const TWO_PIPES_IN_TURN_REPORT: &str = "experiment two-pipes-in-turn\n\
0 ok 0\n\
0 ok 1\n\
0 ok 2\n\
0 ok 3\n\
0 ok 4\n\
0 ok 5\n\
0 ok 6\n\
0 finish 0 1.0\n\
10000000 pass 0 1.0\n\
10000000 finish 0 2.0\n\
15000000 pass 0 2.0\n\
15000001 deliver 0 plain\n\
20000000 ok 7\n\
counters 1 1 0 0 0 0 0 0 0 0 0\n";

/// The scenario of `packet_budget`.
pub const PACKET_BUDGET: &str = "experiment packet-budget seed 0 budget 2\n\
@0 pipe 1 config bw 1Mbit/s\n\
@0 add 100 pipe 1 ip from any to any\n\
@0 inject udp 10.0.0.1 1000 10.0.0.2 2000 1000\n\
@0 inject udp 10.0.0.1 1000 10.0.0.2 2000 1000\n\
@0 inject udp 10.0.0.1 1000 10.0.0.2 2000 1000\n\
@20000000 end\n";

/// The report of `PACKET_BUDGET`.
pub const PACKET_BUDGET_REPORT: &str = "experiment packet-budget\n\
0 ok 0\n\
0 ok 1\n\
0 ok 2\n\
0 ok 3\n\
0 ok 4\n\
0 drop 2 plain budget\n\
8000000 finish 0 1.0\n\
8000001 deliver 0 plain\n\
16000000 finish 1 1.0\n\
16000001 deliver 1 plain\n\
20000000 ok 5\n\
counters 3 2 0 0 0 0 0 0 0 0 1\n";

/// The scenario of `listings`.
pub const LISTINGS: &str = "experiment n seed 0 budget 10\n\
@0 add 300 pipe 1 ip from any to any\n\
@0 add 100 count ip from any to any\n\
@0 add 100 skipto 300 ip from any to any\n\
@0 add 200 deny ip from any to any\n\
@0 pipe 1 config bw 1Mbit/s\n\
@0 inject udp 10.0.0.1 1000 10.0.0.2 2000 1000\n\
@0 show\n\
@0 pipe show\n\
@9000000 end\n";

/// The report of `LISTINGS`.
pub const LISTINGS_REPORT: &str = "experiment n\n\
0 ok 0\n\
0 ok 1\n\
0 ok 2\n\
0 ok 3\n\
0 ok 4\n\
0 ok 5\n\
0 ok 6\n\
rule 00100 1 1000 count ip from any to any\n\
rule 00100 1 1000 skipto 300 ip from any to any\n\
rule 00200 0 0 deny ip from any to any\n\
rule 00300 1 1000 pipe 1 ip from any to any\n\
rule 65535 0 0 deny ip from any to any\n\
0 ok 7\n\
pipe 1 bw 1000000 delay 0 queue 50 plr 0 mask 00/00000000/00000000/0000/0000 droptail\n\
instance 1.0 waiting 0 bytes 0 busy 1 flight 0 drawn 1\n\
8000000 finish 0 1.0\n\
8000001 deliver 0 plain\n\
9000000 ok 8\n\
counters 1 1 0 0 0 0 0 0 0 0 0\n";

/// The scenario of `step_budget`.
pub const STEP_BUDGET: &str = "experiment s seed 0 budget 10 steps 2\n\
@0 show\n\
@0 show\n\
@0 end\n";

/// The report of `STEP_BUDGET`.
pub const STEP_BUDGET_REPORT: &str = "experiment s\n\
0 ok 0\n\
rule 65535 0 0 deny ip from any to any\n\
0 ok 1\n\
rule 65535 0 0 deny ip from any to any\n\
0 spent\n\
counters 0 0 0 0 0 0 0 0 0 0 0\n";
