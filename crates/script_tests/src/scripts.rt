// Whole scripts.

// A script after its first line, and all that it prints.
pub const LISTING: &str = "\
begin,ser
insert,1,10,5
prepare,1
validate,1
commit,1
finish,1
begin,snap
scan,3,0,100
commit,3
";

pub const LISTED: &str = "\
line,call,answer
2,begin,1
3,insert,done
4,prepare,2
5,validate,done
6,commit,done
7,finish,done
8,begin,3
9,scan,1
9,row,10,5
10,commit,refused,4
";

// Short scripts, SCRIPT|LINES, the lines that follow the heading; a semicolon stands for a line feed.
pub const SHORT: &str = "\
|1,fault,1,word;
;|1,fault,1,word;
;;|1,fault,1,word;
;hash;|1,fault,1,word;
hash|
hash;|
ordered|
ordered;|
hash;;|2,fault,1,word;
ordered;;tally;|2,fault,1,word;
hash;tally;;|2,tally,0,0;3,fault,1,word;
hash;tally;;tally;|2,tally,0,0;3,fault,1,word;
hash;tally|2,tally,0,0;
ordered;begin,ser;read,1,7|2,begin,1;3,read,absent;
ordered;begin,ser;read,1,|2,begin,1;3,fault,3,number;
hash;begin,ser;read,1,7\r;|2,begin,1;3,fault,3,number;
hash\r;tally\r;|1,fault,1,word;
hash;\r;|2,fault,1,word;
ordered;\0|2,fault,1,word;
\0|1,fault,1,word;
hash\0;|1,fault,1,word;
hash;insert,1,2,3\0;|2,fault,4,number;
\u{feff}hash;|1,fault,1,word;
hash;\u{ff}|2,fault,1,word;
hash,;;|1,fault,0,count;
Hash,;|1,fault,1,word;
Hash;|1,fault,1,word;
hash ;|1,fault,1,word;
 hash;|1,fault,1,word;
hash\r;|1,fault,1,word;
hashed;|1,fault,1,word;
has;|1,fault,1,word;
Ordered;|1,fault,1,word;
ordered\r;|1,fault,1,word;
order;|1,fault,1,word;
tally;|1,fault,1,word;
begin,ser;|1,fault,1,word;
line,call,answer;|1,fault,1,word;
 ;|1,fault,1,word;
\r;|1,fault,1,word;
,;|1,fault,1,word;
,hash;|1,fault,1,word;
hash,;|1,fault,0,count;
hash,ordered;|1,fault,0,count;
ordered,;|1,fault,0,count;
ordered,1,2;|1,fault,0,count;
h\u{e1}sh;|1,fault,1,word;
";
