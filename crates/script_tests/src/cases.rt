// Transcripts: an entry for each call, CALL|ANSWER. The rows of a scan follow in entries without a call; an entry
// without an answer prints nothing; `* 0 64 ENTRY` is 64 entries, with 0 to 63 for the star. Cases are parted by
// empty lines, and `#` is before their names.

// From the opening.
pub const CASES: &str = "\
# nothing yet
tally|tally,0,0
sweep|sweep,0
begin,ser|begin,1
begin,snap|begin,2
scan,1,0,4294967295|scan,0
read,2,0|read,absent
tally|tally,0,0

# the limits of every number
begin,snap|begin,1
insert,1,0,-2147483648|insert,done
insert,1,4294967295,2147483647|insert,done
insert,1,00000000000000000000007,-0|insert,done
insert,01,8,-000|insert,done
insert,000000000000000000000000000000001,00,1|insert,present
read,1,7|read,0
read,1,008|read,0
update,1,8,-00012|update,done
read,1,8|read,-12
scan,1,0,4294967295|scan,4
|row,0,-2147483648
|row,7,0
|row,8,-12
|row,4294967295,2147483647
scan,001,00,0000000004294967295|scan,4
|row,0,-2147483648
|row,7,0
|row,8,-12
|row,4294967295,2147483647
read,18446744073709551615,0|read,refused,3
read,0018446744073709551615,4294967295|read,refused,3
read,0,0|read,refused,3
delete,1,4294967295|delete,done
prepare,01|prepare,2

# keys of one chain
begin,ser|begin,1
insert,1,256,1|insert,done
insert,1,0,2|insert,done
insert,1,65536,3|insert,done
insert,1,512,4|insert,done
insert,1,1,5|insert,done
delete,1,256|delete,done
scan,1,0,65536|scan,4
|row,0,2
|row,1,5
|row,512,4
|row,65536,3
scan,1,1,65535|scan,2
|row,1,5
|row,512,4
prepare,1|prepare,2
validate,1|validate,done
commit,1|commit,done
finish,1|finish,done
sweep|sweep,1
begin,snap|begin,3
scan,3,0,4294967295|scan,4
|row,0,2
|row,1,5
|row,512,4
|row,65536,3

# a fault ends the script
tally|tally,0,0
begin,ser|begin,1
insert,1,10,x|fault,4,number
tally|
nonsense|

# a fault after a refusal
read,1,1|read,refused,3
begin,ser|begin,1
commit,1|commit,refused,4
scan,1,5,4|scan,refused,6
commit|fault,0,count
";
