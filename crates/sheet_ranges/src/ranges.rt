// The fixed list of ranges: low, high and step of each slot. The current rows, 25 to 27, stand as for a 1 A module and are
// times k; the impedance rows, 64 and 65, stand as for a 5 A module and are times 5 / k.
// Three constant tables, of low, high and step, are the form that the tick's speed was measured with.
use slots::SLOTS;

pub const LOW: [u32; SLOTS] = [
    0, // 0 in service
    0, // 1 module
    0, // 2 section needs load current
    0, // 3 compensation
    0, // 4 its current
    0, // 5 tap from
    0, // 6 organ 6 on
    0, // 7 organ 7 on
    0, // 8 organ 8 on
    0, // 9 organ 9 on
    0, // 10 organ 10 on
    0, // 11 organ 11 on
    0, // 12 organ 12 on
    0, // 13 current organs
    0, // 14 voltage organs
    0, // 15 block at end tap
    0, // 16 supply trip
    0, // 17 wear count on
    0, // 18 organs block manual
    80000, // 19 U_supp 1
    80000, // 20 U_supp 2
    80000, // 21 U_supp 3
    80000, // 22 U_supp 4
    1000, // 23 d_u
    1000, // 24 U_comp
    100, // 25 I_set1, times k
    100, // 26 I_set2, times k
    50, // 27 I_set3, times k
    5000, // 28 U_set1
    5000, // 29 U_set2
    2000, // 30 U_set3
    2000, // 31 U_set4
    5000, // 32 U_set5
    20, // 33 T1
    20, // 34 T2
    20, // 35 T3
    20, // 36 T4
    20, // 37 T5
    0, // 38 T6
    0, // 39 T7
    20, // 40 T8
    0, // 41 T9
    0, // 42 T10
    0, // 43 T11
    0, // 44 T12
    0, // 45 T13
    0, // 46 T14
    0, // 47 T15
    1, // 48 N_pos
    1, // 49 N_R
    1, // 50 N_L
    0, // 51 N_start
    1, // 52 N_max
    0, // 53 sliding tap 1
    0, // 54 sliding tap 2
    0, // 55 sliding tap 3
    0, // 56 sliding tap 4
    0, // 57 sliding tap 5
    0, // 58 sliding tap 6
    0, // 59 sliding tap 7
    0, // 60 sliding tap 8
    0, // 61 sliding tap 9
    0, // 62 sliding tap 10
    0, // 63 continuous regulation
    0, // 64 R, times 5 / k
    0, // 65 X, times 5 / k
    1, // 66 current transformer's rating
    1, // 67 breaker's rating
];

pub const HIGH: [u32; SLOTS] = [
    1, // 0 in service
    1, // 1 module
    1, // 2 section needs load current
    2, // 3 compensation
    3, // 4 its current
    4, // 5 tap from
    1, // 6 organ 6 on
    1, // 7 organ 7 on
    1, // 8 organ 8 on
    1, // 9 organ 9 on
    1, // 10 organ 10 on
    1, // 11 organ 11 on
    1, // 12 organ 12 on
    1, // 13 current organs
    1, // 14 voltage organs
    1, // 15 block at end tap
    1, // 16 supply trip
    1, // 17 wear count on
    1, // 18 organs block manual
    140000, // 19 U_supp 1
    140000, // 20 U_supp 2
    140000, // 21 U_supp 3
    140000, // 22 U_supp 4
    40000, // 23 d_u
    40000, // 24 U_comp
    40000, // 25 I_set1, times k
    40000, // 26 I_set2, times k
    5000, // 27 I_set3, times k
    200000, // 28 U_set1
    100000, // 29 U_set2
    100000, // 30 U_set3
    60000, // 31 U_set4
    200000, // 32 U_set5
    36000, // 33 T1
    36000, // 34 T2
    36000, // 35 T3
    36000, // 36 T4
    36000, // 37 T5
    36000, // 38 T6
    36000, // 39 T7
    2000, // 40 T8
    36000, // 41 T9
    36000, // 42 T10
    36000, // 43 T11
    36000, // 44 T12
    36000, // 45 T13
    36000, // 46 T14
    36000, // 47 T15
    40, // 48 N_pos
    40, // 49 N_R
    40, // 50 N_L
    499999, // 51 N_start
    500000, // 52 N_max
    40, // 53 sliding tap 1
    40, // 54 sliding tap 2
    40, // 55 sliding tap 3
    40, // 56 sliding tap 4
    40, // 57 sliding tap 5
    40, // 58 sliding tap 6
    40, // 59 sliding tap 7
    40, // 60 sliding tap 8
    40, // 61 sliding tap 9
    40, // 62 sliding tap 10
    1, // 63 continuous regulation
    80000, // 64 R, times 5 / k
    80000, // 65 X, times 5 / k
    20000, // 66 current transformer's rating
    20000, // 67 breaker's rating
];

pub const STEP: [u32; SLOTS] = [
    1, // 0 in service
    1, // 1 module
    1, // 2 section needs load current
    1, // 3 compensation
    1, // 4 its current
    1, // 5 tap from
    1, // 6 organ 6 on
    1, // 7 organ 7 on
    1, // 8 organ 8 on
    1, // 9 organ 9 on
    1, // 10 organ 10 on
    1, // 11 organ 11 on
    1, // 12 organ 12 on
    1, // 13 current organs
    1, // 14 voltage organs
    1, // 15 block at end tap
    1, // 16 supply trip
    1, // 17 wear count on
    1, // 18 organs block manual
    100, // 19 U_supp 1
    100, // 20 U_supp 2
    100, // 21 U_supp 3
    100, // 22 U_supp 4
    100, // 23 d_u
    100, // 24 U_comp
    1, // 25 I_set1, times k
    1, // 26 I_set2, times k
    1, // 27 I_set3, times k
    100, // 28 U_set1
    100, // 29 U_set2
    100, // 30 U_set3
    100, // 31 U_set4
    100, // 32 U_set5
    1, // 33 T1
    1, // 34 T2
    1, // 35 T3
    1, // 36 T4
    1, // 37 T5
    1, // 38 T6
    1, // 39 T7
    1, // 40 T8
    1, // 41 T9
    1, // 42 T10
    1, // 43 T11
    1, // 44 T12
    1, // 45 T13
    1, // 46 T14
    1, // 47 T15
    1, // 48 N_pos
    1, // 49 N_R
    1, // 50 N_L
    1, // 51 N_start
    1, // 52 N_max
    1, // 53 sliding tap 1
    1, // 54 sliding tap 2
    1, // 55 sliding tap 3
    1, // 56 sliding tap 4
    1, // 57 sliding tap 5
    1, // 58 sliding tap 6
    1, // 59 sliding tap 7
    1, // 60 sliding tap 8
    1, // 61 sliding tap 9
    1, // 62 sliding tap 10
    1, // 63 continuous regulation
    1, // 64 R, times 5 / k
    1, // 65 X, times 5 / k
    1, // 66 current transformer's rating
    1, // 67 breaker's rating
];
