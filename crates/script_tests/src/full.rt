// Transcripts that fill the slots, the rows, the notes and the versions (cases.rt has the form).
pub const FULL: &str = "\
# 13: 64 slots
* 1 65 begin,ser|begin,*
begin,ser|begin,refused,13
begin,snap|begin,refused,13
abort,5|abort,done
begin,ser|begin,refused,13
finish,5|finish,done
begin,snap|begin,65
begin,ser|begin,refused,13

# 9: 64 rows
begin,snap|begin,1
* 0 64 insert,1,*,3|insert,done
scan,1,0,99|scan,64
* 0 64 |row,*,3
insert,1,64,3|insert,done
scan,1,0,99|scan,refused,9
scan,1,0,64|scan,refused,9
scan,1,1,99|scan,64
* 1 65 |row,*,3

# 10: 256 notes; 6 and 9 come before it
begin,ser|begin,1
* 0 65 insert,1,*,3|insert,done
* 100 356 read,1,*|read,absent
read,1,99|read,refused,10
read,1,64|read,3
scan,1,70,80|scan,refused,10
scan,1,80,70|scan,refused,6
scan,1,0,99|scan,refused,9
update,1,99,1|update,refused,10
update,1,64,4|update,done
delete,1,99|delete,refused,10
delete,1,64|delete,done
insert,1,64,5|insert,done
insert,1,64,6|insert,present
begin,snap|begin,2
read,2,99|read,absent
scan,2,0,99|scan,0
prepare,1|prepare,3
validate,1|validate,done
commit,1|commit,done
begin,ser|begin,4
read,4,64|read,refused,10
insert,4,64,1|insert,refused,10
update,4,64,7|update,done
read,4,64|read,7
finish,1|finish,done
insert,4,63,1|insert,present
read,4,99|read,absent

# 11: 256 versions; 8 comes before it
begin,ser|begin,1
* 0 256 insert,1,*,7|insert,done
insert,1,256,7|insert,refused,11
insert,1,0,7|insert,present
update,1,0,8|update,done
prepare,1|prepare,2
validate,1|validate,done
commit,1|commit,done
finish,1|finish,done
begin,ser|begin,3
update,3,1,9|update,refused,11
read,3,1|read,7
begin,snap|begin,4
delete,4,2|delete,done
insert,4,2,5|insert,refused,11
update,3,2,9|update,refused,8
prepare,4|prepare,5
validate,4|validate,done
commit,4|commit,done
finish,4|finish,done
sweep|sweep,0
finish,3|finish,done
sweep|sweep,1
begin,ser|begin,6
insert,6,300,-1|insert,done
insert,6,301,-1|insert,refused,11
scan,6,240,4294967295|scan,17
* 240 256 |row,*,7
|row,300,-1
tally|tally,2,1
";
