//! What a generated load runs on: the sample, with two regions for each of two balancing groups.

/// The definitions.
pub const DEFINITIONS: &str = "regions = [1, 1, 2, 2]
router = \"FOLD\"
[[msdb]]
name = \"ACCTS\"
fields = [[\"ACCT\", \"C\", 4], [\"BAL\", \"P\", 4]]
load = [[\"A001\", \"100\"], [\"A002\", \"50\"]]
[[msdb]]
name = \"TELLERS\"
dynamic = true
fields = [[\"TNO\", \"C\", 4], [\"CASH\", \"F\", 4]]
load = [[\"T001\", \"0\"]]
[[dedb]]
name = \"CUST\"
randomizer = \"FOLD\"
ci = 512
[[dedb.segment]]
name = \"CUSTOMER\"
fields = [[\"CNO\", \"C\", 4], [\"NAME\", \"C\", 12]]
[[dedb.segment]]
name = \"AUDIT\"
parent = \"CUSTOMER\"
sequential = true
fields = [[\"WHAT\", \"C\", 8]]
[[dedb.segment]]
name = \"LOAN\"
parent = \"CUSTOMER\"
fields = [[\"LNO\", \"C\", 2], [\"DUE\", \"P\", 4]]
[[dedb.area]]
name = \"AREA1\"
uows = 2
base = 2
overflow = 1
capacity = 4
[[dedb.area]]
name = \"AREA2\"
uows = 2
base = 2
overflow = 1
capacity = 4
";

/// The scripts.
pub const SCRIPTS: &str = "TRAN DEPOSIT
FLD ACCTS KEY(#1) BAL + #2
IF STATUS NE ''
ROLB 1
END
REPLY 'NEW'
TRAN WDRAW
FLD ACCTS KEY(#1) BAL H #2 BAL - #2
IF STATUS NE ''
ROLB 7
END
REPLY 'PAID ' #2
TRAN ASK
GU ACCTS KEY(#1)
IF STATUS NE ''
REPLY 'NONE'
END
REPLY IO.BAL
TRAN SETBAL
GHU ACCTS KEY(#1)
REPL ACCTS BAL=#2
REPLY 'SET'
TRAN NEWCUST
ISRT CUST CUSTOMER CNO=#1 NAME=#2
IF STATUS NE ''
ROLB 2
END
REPLY 'ADDED'
TRAN NOTE
ISRT CUST CUSTOMER(#1) AUDIT WHAT=#2
IF STATUS NE ''
ROLB 3
END
REPLY 'NOTED'
TRAN LEND
ISRT CUST CUSTOMER(#1) LOAN LNO=#2 DUE=#3
REPLY 'LENT' STATUS
TRAN SHOWC
GU CUST CUSTOMER(#1)
IF STATUS NE ''
ROLB 4
END
SET OUT IO.NAME
REPEAT 10
GNP CUST AUDIT
IF STATUS NE ''
BREAK
END
SET OUT OUT & ' '
SET OUT OUT & IO.WHAT
END
REPLY OUT
TRAN TWO
GHU CUST CUSTOMER(#1)
GHU CUST CUSTOMER(#2)
REPLY 'BOTH'
TRAN LISTC
SET OUT ''
REPEAT 30
GN CUST CUSTOMER
IF STATUS NE ''
BREAK
END
IF OUT NE ''
SET OUT OUT & ' '
END
SET OUT OUT & IO.CNO
END
REPLY OUT
TRAN HIRE
ISRT TELLERS TNO=#1 CASH=0
SET A STATUS
ISRT TELLERS TNO=#1 CASH=0
REPLY A '/ ' STATUS
";
