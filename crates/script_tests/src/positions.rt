// Transcripts that begin after the set-up (cases.rt has the form).

// 10 with 5 and 20 with 7 are committed at stamp 2.
pub const SET_UP: &str = "\
begin,ser|begin,1
insert,1,10,5|insert,done
insert,1,20,7|insert,done
prepare,1|prepare,2
validate,1|validate,done
commit,1|commit,done
finish,1|finish,done
";

// The played positions, some carried on.
pub const POSITIONS: &str = "\
# both update 10
begin,ser|begin,3
begin,ser|begin,4
update,3,10,6|update,done
update,4,10,8|update,refused,8
read,4,10|read,refused,4
finish,4|finish,done
prepare,3|prepare,5
validate,3|validate,done
commit,3|commit,done
finish,3|finish,done
begin,snap|begin,6
scan,6,0,100|scan,2
|row,10,6
|row,20,7
tally|tally,2,1

# the same as snapshot transactions
begin,snap|begin,3
begin,snap|begin,4
update,3,10,6|update,done
update,4,10,8|update,refused,8
abort,4|abort,refused,4
finish,4|finish,done
prepare,3|prepare,5
validate,3|validate,done
commit,3|commit,done
tally|tally,2,1

# each reads what the other updates
begin,ser|begin,3
begin,ser|begin,4
read,3,20|read,7
read,4,10|read,5
update,3,10,6|update,done
update,4,20,8|update,done
prepare,3|prepare,5
validate,3|validate,done
commit,3|commit,done
prepare,4|prepare,6
validate,4|validate,refused,15
commit,4|commit,refused,4
begin,snap|begin,7
scan,7,0,100|scan,2
|row,10,6
|row,20,7
tally|tally,2,1

# the same as snapshot transactions: both commit
begin,snap|begin,3
begin,snap|begin,4
read,3,20|read,7
read,4,10|read,5
update,3,10,6|update,done
update,4,20,8|update,done
prepare,3|prepare,5
validate,3|validate,done
commit,3|commit,done
prepare,4|prepare,6
validate,4|validate,done
commit,4|commit,done
begin,snap|begin,7
scan,7,0,100|scan,2
|row,10,6
|row,20,8
tally|tally,3,0

# a commit waits
begin,ser|begin,3
update,3,10,6|update,done
prepare,3|prepare,4
begin,ser|begin,5
read,5,10|read,6
prepare,5|prepare,6
validate,5|validate,done
commit,5|commit,refused,16,1
validate,3|validate,done
commit,5|commit,refused,16,1
commit,3|commit,done
commit,5|commit,done
finish,3|finish,done
finish,5|finish,done
tally|tally,3,0
sweep|sweep,1

# the one waited on aborts
begin,ser|begin,3
update,3,10,6|update,done
prepare,3|prepare,4
begin,ser|begin,5
read,5,10|read,6
prepare,5|prepare,6
validate,5|validate,done
abort,3|abort,done
commit,5|commit,refused,5
abort,5|abort,done
finish,5|finish,done
finish,3|finish,done
begin,ser|begin,7
read,7,10|read,5
tally|tally,1,2

# a scan and an insert in its range
begin,ser|begin,3
begin,ser|begin,4
scan,3,0,100|scan,2
|row,10,5
|row,20,7
insert,4,15,1|insert,done
prepare,4|prepare,5
validate,4|validate,done
commit,4|commit,done
prepare,3|prepare,6
validate,3|validate,refused,15
commit,3|commit,refused,4
finish,3|finish,done
finish,4|finish,done
begin,snap|begin,7
scan,7,0,100|scan,3
|row,10,5
|row,15,1
|row,20,7

# a read that found nothing
begin,ser|begin,3
begin,ser|begin,4
read,3,15|read,absent
insert,4,15,1|insert,done
prepare,4|prepare,5
validate,4|validate,done
commit,4|commit,done
prepare,3|prepare,6
validate,3|validate,refused,15
finish,3|finish,done
tally|tally,2,1

# an End taken over from an aborted one
begin,ser|begin,3
begin,ser|begin,4
update,3,10,6|update,done
abort,3|abort,done
update,4,10,8|update,done
finish,3|finish,done
begin,snap|begin,5
update,5,10,9|update,refused,8
read,4,10|read,8
prepare,4|prepare,6
validate,4|validate,done
commit,4|commit,done
begin,snap|begin,7
read,7,10|read,8

# commits in the other order
begin,ser|begin,3
begin,ser|begin,4
update,3,10,6|update,done
update,4,20,8|update,done
prepare,3|prepare,5
prepare,4|prepare,6
validate,4|validate,done
commit,4|commit,done
begin,snap|begin,7
scan,7,0,100|scan,2
|row,10,6
|row,20,8
validate,3|validate,done
commit,3|commit,done
scan,7,0,100|scan,2
|row,10,6
|row,20,8
tally|tally,3,0
finish,3|finish,done
finish,4|finish,done
sweep|sweep,2
prepare,7|prepare,8
validate,7|validate,done
commit,7|commit,done
finish,7|finish,done
sweep|sweep,0
";
