//! Inputs that several tables use, and what is written of them.

/// Two clusters of two applicants, two seats, and no points, so that each cluster has one seat.
pub const FOUR_APPLICANTS: &[u8] = b"call 2 2 1
applicant a
applicant b
applicant c
applicant d
place a 1
place b 1
place c 2
place d 2
pair a c
pair b d
pair c a
pair d b
assign
review a c 0
close
draw 0
";

/// The report of `FOUR_APPLICANTS`.
pub const FOUR_REPORT: &str = "call 2 2 1
applicants 4
aside 0 0 0 0 0 0
draw 0/4000000
cluster 1 cents 2000000 quota 4000000/4000000 seats 1 filled 1
cluster 2 cents 2000000 quota 4000000/4000000 seats 1 filled 1
applicant a cluster 1 rank 1 cents 1000000 chance 4000000/4000000 yes
applicant b cluster 1 rank 2 cents 1000000 chance 0/4000000 no
applicant c cluster 2 rank 1 cents 1000000 chance 4000000/4000000 yes
applicant d cluster 2 rank 2 cents 1000000 chance 0/4000000 no
empty 0
";

/// A call of 24 proposals in four clusters, opened by this call file and this register.
pub const CALL_OF_24: &[u8] = b"# Autumn call
seats = 6
clusters = 4
reviews = 3
";

pub const REGISTER_OF_24: &[u8] = b"name,cluster,conflicts
prop-01,1,\"prop-07 prop-10\"
prop-02,2,
prop-03,3,
prop-04,4,
prop-05,1,
prop-06,2,
prop-07,3,
prop-08,4,
prop-09,1,
prop-10,2,
prop-11,3,
prop-12,4,
prop-13,1,
prop-14,2,
prop-15,3,
prop-16,4,
prop-17,1,
prop-18,2,
prop-19,3,
prop-20,4,
prop-21,1,
prop-22,2,
prop-23,3,
prop-24,4,
";

/// The lines behind its opening.
pub const INPUT_OF_24: &[u8] = b"# reviews

assign
review prop-01 prop-02 9
review prop-01 prop-03 6
close
draw 20000000";

/// Its report.
pub const REPORT_OF_24: &str = "call 6 4 3
applicants 24
aside 0 0 0 0 0 0
draw 20000000/24000000
cluster 1 cents 6000000 quota 36000000/24000000 seats 1 filled 1
cluster 2 cents 6266666 quota 37599996/24000000 seats 2 filled 2
cluster 3 cents 6066667 quota 36400002/24000000 seats 1 filled 1
cluster 4 cents 5666667 quota 34000002/24000000 seats 2 filled 2
applicant prop-01 cluster 1 rank 1 cents 1000000 chance 24000000/24000000 yes
applicant prop-02 cluster 2 rank 1 cents 1266666 chance 24000000/24000000 yes
applicant prop-03 cluster 3 rank 1 cents 1066667 chance 24000000/24000000 yes
applicant prop-04 cluster 4 rank 6 cents 666667 chance 0/24000000 no
applicant prop-05 cluster 1 rank 2 cents 1000000 chance 12000000/24000000 no
applicant prop-06 cluster 2 rank 2 cents 1000000 chance 13599996/24000000 yes
applicant prop-07 cluster 3 rank 2 cents 1000000 chance 12400002/24000000 no
applicant prop-08 cluster 4 rank 1 cents 1000000 chance 24000000/24000000 yes
applicant prop-09 cluster 1 rank 3 cents 1000000 chance 0/24000000 no
applicant prop-10 cluster 2 rank 3 cents 1000000 chance 0/24000000 no
applicant prop-11 cluster 3 rank 3 cents 1000000 chance 0/24000000 no
applicant prop-12 cluster 4 rank 2 cents 1000000 chance 10000002/24000000 yes
applicant prop-13 cluster 1 rank 4 cents 1000000 chance 0/24000000 no
applicant prop-14 cluster 2 rank 4 cents 1000000 chance 0/24000000 no
applicant prop-15 cluster 3 rank 4 cents 1000000 chance 0/24000000 no
applicant prop-16 cluster 4 rank 3 cents 1000000 chance 0/24000000 no
applicant prop-17 cluster 1 rank 5 cents 1000000 chance 0/24000000 no
applicant prop-18 cluster 2 rank 5 cents 1000000 chance 0/24000000 no
applicant prop-19 cluster 3 rank 5 cents 1000000 chance 0/24000000 no
applicant prop-20 cluster 4 rank 4 cents 1000000 chance 0/24000000 no
applicant prop-21 cluster 1 rank 6 cents 1000000 chance 0/24000000 no
applicant prop-22 cluster 2 rank 6 cents 1000000 chance 0/24000000 no
applicant prop-23 cluster 3 rank 6 cents 1000000 chance 0/24000000 no
applicant prop-24 cluster 4 rank 5 cents 1000000 chance 0/24000000 no
empty 0
";
